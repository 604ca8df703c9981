//! An image that serves one request after the other.
ghost use Rattle.std.specs.Prelude.{◌≡◌, ◌<◌, ◌≤◌, ◌^◌, sum, [], ◌∷◌, ◌++◌, length, slice_index, Option, IfSome, IfOk, IfErr};
ghost use Rattle.aio_model.specs.Serving.{length_of, end_of};

use crate::calls::serve_piece;
use crate::ledger::Ledger;
use crate::present::PIECE;
use crate::{Enter, Entry, Left, Mark, Piece, Present};
use aio_model::{Request, Unmade};
use aio_words::Device;
use std::alloc::Global;
use std::marker::Model;

/// An image on a device, and the journal of the requests that got their replies.
pub struct Image<D: Device> {
    device: D,
    size: u64,
    ledger: Ledger,
    present: Option<Present>,
}

impl<D: Device> Model for Image<D> {
    ghost use Rattle.img_requests.specs.ImageState.{ImageState};
    ghost use Rattle.img_requests.specs.Soundness.{IsSound};

    ghost Value = { ImageState D };

    ghost view = { λ i. record { device = i.device; size = i.size; requests = i.ledger.requests; journal = i.ledger.entries; present = i.present } };

    ghost invariant = { λ i. IsSound (D.extent i.device) i.size i.ledger i.present };
}

impl<D: Device> Image<D> {
    ghost use Rattle.std.specs.Prelude.{None, Some};
    ghost use Rattle.aio_words.specs.Faults.{HasRisen};
    ghost use Rattle.img_requests.specs.ImageState.{Enters, CanLeave, OnBegun, Serves};
    ghost use Rattle.img_requests.specs.Journal.{entry_count, entry_next, mark_of_present};
    ghost use Rattle.img_requests.specs.PieceCalls.{MakesDeviceCall, is_failed};
    ghost use Rattle.img_requests.specs.Pieces.{OnFailed, HasRoom, IsSilent, piece_length};
    ghost use Rattle.img_requests.specs.Presents.{done_of, IsBegun};

    /// An image of the device's first `size` bytes, for so many requests of each stream.
    pub fn build(
        alloc: Global,
        device: D,
        size: u64,
        requests: &[u32],
    ) -> Result<Image<D>, Unmade<D>>
        requires inside { size ≤ D.extent device }
        requires streams { length requests.now ≤ 64 }
        requires few { sum requests.now ≤ 4096 }
        ensures ok { IfOk result (λ image. image ≡ record { device = device; size = size; requests = requests.now; journal = []; present = None }) }
        ensures err { IfErr result (λ unmade. unmade.back ≡ device) }
    {
        match Ledger::build(alloc, requests) {
            Ok(ledger) => Ok(Image {
                device,
                size,
                ledger,
                present: None,
            }),
            Err(_) => Err(Unmade { back: device }),
        }
    }

    /// Begins a request of the stream, or refuses it.
    pub fn enter(&mut self, stream: u32, request: &Request) -> Enter
        requires known { stream < length self.old.requests }
        requires free { self.old.present ≡ None }
        requires due { entry_count stream self.old.journal < slice_index self.old.requests stream }
        requires small { length_of request.now < 2 ^ 32 }
        ensures entered { Enters self.old stream request.now result self.new }

        // Where the device tells its bytes, those that the request is about are among them.
        ensures inside { OnBegun result (IfSome (D.bytes self.new.device) (λ told. end_of request.now ≤ length told)) }
    {
        let present = Present::begin(stream, request);
        if present.reaches_past(self.size) {
            return Enter::Refused(self.ledger.note(stream, Mark::Einval));
        }
        self.present = Some(present);
        Enter::Begun
    }

    /// Serves the next piece of the present request: 4,096 bytes, or all that is left where that is less, or the
    /// flush. It makes one call of the device, and none where nothing is left.
    pub fn piece(&mut self, stream: u32, request: &Request, buf: &mut [u8]) -> Piece
        requires begun { IsBegun stream request.now self.old.present }
        requires room { HasRoom request.now buf.old }
        ensures served { Serves D.bytes stream request.now result self.old self.new buf.old buf.new }
        ensures cause { OnFailed result (HasRisen (D.faults self.old.device) (D.faults self.new.device)) }
        ensures counted { D.faults self.old.device ≤ D.faults self.new.device }
        ensures quiet { IsSilent request.now (piece_length (length_of request.now) (done_of self.old.present))
            → D.faults self.new.device ≡ D.faults self.old.device }
        ensures sizes { D.size_faults self.new.device ≡ D.size_faults self.old.device }
        ensures extent { D.extent self.new.device ≡ D.extent self.old.device }
        ensures calls { MakesDeviceCall request.now (done_of self.old.present) (piece_length (length_of request.now) (done_of self.old.present))
            (is_failed result) (D.calls self.old.device) (D.calls self.new.device) }
    {
        let Some(present) = self.present else {
            unreachable!()
        };
        let n = PIECE.min(present.length - present.done);
        let served = serve_piece(&mut self.device, request, present.done, n, buf).is_ok();
        let (answer, present) = present.after(n, served);
        self.present = Some(present);
        answer
    }

    /// Gives the present request its place in the journal.
    pub fn leave(&mut self, stream: u32) -> Left
        requires { CanLeave stream self.old.present }
        ensures left { result ≡ record { place = length self.old.journal; woken = None } }
        ensures image { self.new ≡ record self.old {
          journal = self.old.journal ++ entry_next stream self.old.journal (mark_of_present self.old.present) ∷ [];
          present = None;
        } }
    {
        let Some(present) = self.present else {
            unreachable!()
        };
        let place = self.ledger.note(stream, present.mark());
        self.present = None;
        Left { place, woken: None }
    }

    /// The entries of the requests that got their replies, in the order of their places.
    pub fn journal(&self) -> &[Entry]
        ensures { result.now ≡ self.now.journal }
    {
        self.ledger.entries()
    }

    /// The device.
    pub fn into_device(self) -> D
        ensures { result ≡ self.device }
    {
        let Image {
            device,
            size: _,
            ledger: _,
            present: _,
        } = self;
        device
    }
}
