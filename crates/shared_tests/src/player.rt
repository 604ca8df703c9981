//! A stream with one request and one buffer.
ghost use Rattle.std.specs.Prelude.{◌≡◌, ◌<◌, ◌^◌, ◌⊎◌, ℕ, length};
ghost use Rattle.shared_tests.specs.declared.turn.Turn.TheVariants.{Rest, Wait, Serve, Leave};
ghost use Rattle.aio_model.specs.Serving.{length_of};
ghost use Rattle.img_shared.specs.Notes.{SameNotes};
ghost use Rattle.shared_tests.specs.Sits.{Sits};

use crate::turn::{Answer, Turn};
use aio_model::Request;
use aio_words::Device;
use img_shared::{Enter, Image, Piece};
use std::alloc::Global;

/// A stream, with its request and its buffer.
#[derive(Drop)]
pub struct Player {
    stream: u32,
    /// How many requests it has without an entry.
    left: u32,
    turn: Turn,
    request: Request,
    buffer: Vec<u8>,

    ghost small: { length_of request < 2 ^ 32 },
    ghost room: { length buffer.items ≡ length_of request },
}

impl Player {
    /// Of this stream, which has so many requests. Its first is a flush, unless it is told another.
    pub fn fresh(alloc: Global, stream: u32, left: u32) -> Player
        ensures stream { result.stream ≡ stream }
        ensures left { result.left ≡ left }
        ensures turn { result.turn ≡ Rest }
    {
        Player {
            stream,
            left,
            turn: Turn::Rest,
            request: Request::Flush,
            buffer: Vec::new(alloc),
        }
    }

    /// What its buffer holds.
    pub fn found(&self) -> &[u8] {
        self.buffer.as_slice()
    }

    /// It is told its next request, and answers whether it is between two.
    pub fn asks(&mut self, request: Request, buffer: Vec<u8>) -> bool
        requires small { length_of request < 2 ^ 32 }
        requires room { length buffer.items ≡ length_of request }
        ensures stream { self.new.stream ≡ self.old.stream }
        ensures left { self.new.left ≡ self.old.left }
        ensures turn { self.new.turn ≡ self.old.turn }
        ensures request { (self.new.request ≡ self.old.request) ⊎ (self.old.turn ≡ Rest) }
    {
        match self.turn {
            Turn::Rest => {}
            Turn::Wait | Turn::Serve | Turn::Leave | Turn::Gone => return false,
        }
        let (stream, left) = (self.stream, self.left);
        *self = Player {
            stream,
            left,
            turn: Turn::Rest,
            request,
            buffer,
        };
        true
    }

    fn begin<D: Device>(&mut self, image: &mut Image<D>) -> Answer
        requires rest { self.old.turn ≡ Rest }
        requires sits { Sits self.old.stream self.old.left Rest self.old.request image.old }
        ensures sits { Sits self.new.stream self.new.left self.new.turn self.new.request image.new }
        ensures stream { self.new.stream ≡ self.old.stream }
        ensures others { SameNotes D.bytes self.old.stream image.old image.new }
    {
        if self.left == 0 {
            self.turn = Turn::Gone;
            return Answer::Retired(image.retire(self.stream));
        }
        let answer = image.enter(self.stream, &self.request);
        match answer {
            Enter::Begun => self.turn = Turn::Serve,
            Enter::Queued => self.turn = Turn::Wait,
            Enter::Refused(_) => self.left -= 1,
        }
        Answer::Entered(answer)
    }

    fn take_up<D: Device>(&mut self, image: &mut Image<D>) -> Answer
        requires sits { Sits self.old.stream self.old.left Wait self.old.request image.old }
        requires waits { self.old.turn ≡ Wait }
        ensures sits { Sits self.new.stream self.new.left self.new.turn self.new.request image.new }
        ensures stream { self.new.stream ≡ self.old.stream }
        ensures others { SameNotes D.bytes self.old.stream image.old image.new }
    {
        if !image.holds(self.stream) {
            return Answer::StillWaits;
        }
        self.turn = Turn::Serve;
        Answer::TookUp(image.granted(self.stream))
    }

    fn serve<D: Device>(&mut self, image: &mut Image<D>) -> Answer
        requires sits { Sits self.old.stream self.old.left Serve self.old.request image.old }
        requires serves { self.old.turn ≡ Serve }
        ensures sits { Sits self.new.stream self.new.left self.new.turn self.new.request image.new }
        ensures stream { self.new.stream ≡ self.old.stream }
        ensures others { SameNotes D.bytes self.old.stream image.old image.new }
    {
        let piece = image.piece(self.stream, &self.request, &mut self.buffer);
        match piece {
            Piece::More => {}
            Piece::Whole | Piece::Failed => self.turn = Turn::Leave,
        }
        Answer::Served(piece)
    }

    fn leave<D: Device>(&mut self, image: &mut Image<D>) -> Answer
        requires sits { Sits self.old.stream self.old.left Leave self.old.request image.old }
        ensures sits { Sits self.new.stream self.new.left self.new.turn self.new.request image.new }
        ensures stream { self.new.stream ≡ self.old.stream }
        ensures others { SameNotes D.bytes self.old.stream image.old image.new }
    {
        self.turn = Turn::Rest;
        self.left -= 1;
        let left = image.leave(self.stream);
        Answer::Left(left.place, left.woken)
    }

    /// What its stream does next.
    pub fn step<D: Device>(&mut self, image: &mut Image<D>) -> Answer
        requires sits { Sits self.old.stream self.old.left self.old.turn self.old.request image.old }
        ensures sits { Sits self.new.stream self.new.left self.new.turn self.new.request image.new }
        ensures stream { self.new.stream ≡ self.old.stream }
        ensures others { SameNotes D.bytes self.old.stream image.old image.new }
    {
        match self.turn {
            Turn::Rest => self.begin(image),
            Turn::Wait => self.take_up(image),
            Turn::Serve => self.serve(image),
            Turn::Leave => self.leave(image),
            Turn::Gone => Answer::Nothing,
        }
    }
}
