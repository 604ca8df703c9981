//! A request under way.
ghost use Rattle.std.specs.Prelude.{◌≡◌, ◌<◌, ◌^◌, ◌+◌, ◌↔◌, IsTrue};
ghost use Rattle.aio_model.specs.Serving.{length_of};

use crate::{Mark, Piece};
use aio_model::Request;

/// The most bytes that a piece has.
pub const PIECE: u32 = 4096;

#[derive(Clone, Copy, Debug, PartialEq, Eq)]
pub enum RequestKind {
    Read,
    Write,
    Zero,
    Flush,
}

/// How far a request has come.
#[derive(Clone, Copy, Debug, PartialEq, Eq)]
pub enum Stage {
    /// The next piece may be served.
    Begun,
    Whole,
    /// The device failed at the piece that came next.
    Failed,
}

/// A request that was entered and hasn't left: whose it is, what it asks, and how many of its bytes were served.
#[derive(Clone, Copy, Debug, PartialEq, Eq)]
pub struct Present {
    pub stream: u32,
    pub kind: RequestKind,
    pub at: u64,
    pub length: u32,
    pub done: u32,
    pub stage: Stage,
}

impl Present {
    ghost use Rattle.img_requests.specs.Journal.{mark_ended_at};
    ghost use Rattle.img_requests.specs.Pieces.{answer_to, done_after, stage_after};
    ghost use Rattle.img_requests.specs.Presents.{present_of};

    /// A request of this stream with all its pieces still to come.
    pub fn begin(stream: u32, request: &Request) -> Present
        requires { length_of request.now < 2 ^ 32 }
        ensures { result ≡ present_of stream request.now 0 Stage.Begun }
    {
        let (kind, at, length) = match request {
            Request::Read { at, len } => (RequestKind::Read, *at, *len),
            Request::Write { at, bytes } => (RequestKind::Write, *at, bytes.len() as u32),
            Request::Zero { at, len } => (RequestKind::Zero, *at, *len),
            Request::Flush => (RequestKind::Flush, 0, 0),
        };
        Present {
            stream,
            kind,
            at,
            length,
            done: 0,
            stage: Stage::Begun,
        }
    }

    /// Whether the request reaches past the end of an image of this size.
    pub fn reaches_past(&self, size: u64) -> bool
        ensures { IsTrue result ↔ (size < self.now.at + self.now.length) }
    {
        let length = u64::from(self.length);
        length > size || self.at > size - length
    }

    /// What a piece of n bytes makes of it, where the device served it or failed.
    pub fn after(self, n: u32, served: bool) -> (Piece, Present)
        requires { self.done + n < 2 ^ 32 }
        ensures answer { result.0 ≡ answer_to served (self.done + n) self.length }
        ensures present { result.1
            ≡ record self { done = done_after result.0 self.done n; stage = stage_after result.0 } }
    {
        let (answer, stage, done) = if !served {
            (Piece::Failed, Stage::Failed, self.done)
        } else if self.done + n == self.length {
            (Piece::Whole, Stage::Whole, self.done + n)
        } else {
            (Piece::More, Stage::Begun, self.done + n)
        };
        let present = Present {
            stream: self.stream,
            kind: self.kind,
            at: self.at,
            length: self.length,
            done,
            stage,
        };
        (answer, present)
    }

    /// What stands in the journal of it, once it has ended.
    pub fn mark(&self) -> Mark
        ensures { result ≡ mark_ended_at self.now.stage self.now.kind self.now.length self.now.done }
    {
        match (self.stage, self.kind) {
            (Stage::Whole, RequestKind::Read) => Mark::Got(self.length),
            (Stage::Whole, RequestKind::Write) => Mark::Put(self.length),
            (Stage::Whole, RequestKind::Zero) => Mark::Zeroed(self.length),
            (Stage::Whole, RequestKind::Flush) => Mark::Flushed,
            (Stage::Begun | Stage::Failed, _) => Mark::Eio(self.done),
        }
    }
}
