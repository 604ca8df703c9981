//! The calls of a stream on its image, while it has the lock. Each notes first where the stream is.
ghost use Rattle.std.specs.Prelude.{◌≡◌, ◌<◌, ◌≤◌, ◌^◌, length, slice_index, option_map, IfSome};
ghost use Rattle.aio_model.specs.Serving.{length_of, end_of};
ghost use Rattle.img_requests.specs.ImageState.{OnBegun};
ghost use Rattle.img_requests.specs.Pieces.{HasRoom};
ghost use Rattle.img_shared.specs.declared.phases.Phase.TheVariants.{Idle};
ghost use Rattle.img_shared.specs.Calls.{Enters, IsServing, Serves};
ghost use Rattle.img_shared.specs.Journals.{noted_count};
ghost use Rattle.img_shared.specs.Notes.{SameNotes};
ghost use Rattle.img_shared.specs.Phases.{phase_at, done_in, CanLeave};
ghost use Rattle.img_streams.specs.ImageCalls.{come_to, coroutine_of_stream, IsWaitingFor, TakesUp, LeavesSo, Retires, OnGranted};

use crate::answers::Grant;
use crate::boxed::BoxedImage;
use aio_model::Request;
use aio_words::Device;
use co_state::CoId;
use img_shared::{Enter, Image, Piece};

/// The coroutine of a stream that is to be woken.
fn named_in<D: Device>(image: &Image<D>, woken: Option<u32>) -> Option<CoId>
    requires known { IfSome woken (λ next. next < length image.now.requests) }
    ensures { result ≡ option_map (coroutine_of_stream image.now) woken }
{
    match woken {
        None => None,
        Some(co) => Some(CoId {
            co,
            home: image.home_of(co),
        }),
    }
}

/// Enters the stream's next request.
pub(crate) fn enter<D: Device>(image: &mut BoxedImage<D>, co: CoId, request: &Request) -> Enter
    requires known { co.co < length image.old.requests }
    requires free { phase_at image.old.phases co.co ≡ Idle }
    requires due { noted_count co.co image.old.journal < slice_index image.old.requests co.co }
    requires small { length_of request.now < 2 ^ 32 }
    ensures entered { Enters (come_to co image.old) co.co request.now result image.new }
    ensures clean { OnBegun result (D.bytes image.old.device ≡ D.bytes image.old.left) }
    ensures inside { OnBegun result (IfSome (D.bytes image.old.device) (λ told. end_of request.now ≤ length told)) }
    ensures others { SameNotes D.bytes co.co image.old image.new }
{
    image.image.come(co.co, co.home);
    image.image.enter(co.co, request)
}

/// Takes up the stream's hold, if it was granted, and serves the first piece of its request.
pub(crate) fn take_up<D: Device>(
    image: &mut BoxedImage<D>,
    co: CoId,
    request: &Request,
    buffer: &mut [u8],
) -> Grant
    requires known { co.co < length image.old.requests }
    requires waits { IsWaitingFor (phase_at image.old.phases co.co) co.co request.now }
    requires room { HasRoom request.now buffer.old }
    ensures taken { TakesUp D.bytes co request.now buffer.old buffer.new result image.old image.new }
    ensures clean { OnGranted result (D.bytes image.old.device ≡ D.bytes image.old.left) }
    ensures inside { OnGranted result (IfSome (D.bytes image.old.device) (λ told. image.old.size ≤ length told)) }
    ensures others { SameNotes D.bytes co.co image.old image.new }
{
    let shared = &mut *image.image;
    shared.come(co.co, co.home);
    if !shared.holds(co.co) {
        return Grant::NotYet;
    }
    let next = shared.granted(co.co);
    let woken = named_in(shared, next);
    let first = shared.piece(co.co, request, buffer);
    Grant::Granted(woken, first)
}

/// Serves the next piece of the stream's request.
pub(crate) fn serve<D: Device>(
    image: &mut BoxedImage<D>,
    co: CoId,
    request: &Request,
    buf: &mut [u8],
) -> Piece
    requires known { co.co < length image.old.requests }
    requires begun { IsServing (phase_at image.old.phases co.co) co.co request.now (done_in (phase_at image.old.phases co.co)) }
    requires room { HasRoom request.now buf.old }
    ensures served { Serves D.bytes co.co request.now (done_in (phase_at image.old.phases co.co)) result (come_to co image.old) image.new buf.old buf.new }
    ensures others { SameNotes D.bytes co.co image.old image.new }
{
    image.image.come(co.co, co.home);
    image.image.piece(co.co, request, buf)
}

/// Gives the stream's request its place, and answers whom to wake.
pub(crate) fn leave<D: Device>(image: &mut BoxedImage<D>, co: CoId) -> Option<CoId>
    requires known { co.co < length image.old.requests }
    requires ended { CanLeave (phase_at image.old.phases co.co) }
    ensures left { LeavesSo co result image.old image.new }
    ensures others { SameNotes D.bytes co.co image.old image.new }
{
    image.image.come(co.co, co.home);
    let woken = image.image.leave(co.co).woken;
    named_in(&image.image, woken)
}

/// Retires the stream, and answers how many haven't retired yet.
pub(crate) fn retire<D: Device>(image: &mut BoxedImage<D>, co: CoId) -> u32
    requires known { co.co < length image.old.requests }
    requires free { phase_at image.old.phases co.co ≡ Idle }
    requires all { noted_count co.co image.old.journal ≡ slice_index image.old.requests co.co }
    ensures retired { Retires co result image.old image.new }
    ensures others { SameNotes D.bytes co.co image.old image.new }
{
    image.image.come(co.co, co.home);
    image.image.retire(co.co)
}
