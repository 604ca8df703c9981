//! What a stream does in one turn at the lock: it takes the lock, makes one call on the image, and gives the lock back. A
//! stream that takes up its hold is served a piece in the same turn.
ghost use Rattle.std.specs.Prelude.{◌≡◌, ◌<◌, ◌^◌, length, ℕ, List};
ghost use Rattle.aio_model.specs.Serving.{length_of};
ghost use Rattle.img_requests.specs.Pieces.{HasRoom};
ghost use Rattle.img_shared.specs.declared.phases.Phase.TheVariants.{Idle};
ghost use Rattle.img_shared.specs.Calls.{Enters, IsServing, Serves};
ghost use Rattle.img_shared.specs.Phases.{done_in, phase_at, CanLeave};
ghost use Rattle.img_streams.specs.ImageCalls.{come_to, IsWaitingFor, TakesUp, LeavesSo, Retires};
ghost use Rattle.img_streams.specs.Own.{own_note, IsOwnPass, Turned, OnDid, OnWaits};
ghost use Rattle.img_streams.specs.Steps.{IsEntered, IsTakenUp, IsPieceServed, HasLeft, NoteHasRetired};

use crate::answers::{Grant, Visit};
use crate::gate::Passed;
use crate::hold::reach;
use crate::image_calls;
use crate::rule::ImageRule;
use aio_model::Request;
use aio_words::Device;
use co_mutex::{CoMutex, Lock, Pass};
use co_state::CoId;
use img_shared::{Enter, Piece};
use std::sync::Wait;

/// Enters the stream's next request, for which it has passed the gate.
pub fn enter<D: Device, R: Wait>(
    rt: &R,
    lock: &CoMutex<ImageRule<D>>,
    pass: &mut Pass<ImageRule<D>>,
    queued: bool,
    co: CoId,
    passed: Passed,
    request: &Request,
) -> Visit<Enter>
    requires passed { passed ≡ record { stream = co.co; index = length (own_note D.bytes lock.now pass.old).entries } }
    requires of { IsOwnPass D.bytes lock.now pass.old co.co queued }
    requires idle { (own_note D.bytes lock.now pass.old).phase ≡ Idle }
    requires due { length (own_note D.bytes lock.now pass.old).entries < (own_note D.bytes lock.now pass.old).requests }
    requires small { length_of request.now < 2 ^ 32 }
    ensures turn { Turned D.bytes lock.now (λ answer found left. Enters (come_to co found) co.co request.now answer left) co queued pass.old result pass.new }
    ensures entered { OnDid result (λ answer. IsEntered D.bytes co.co request.now (own_note D.bytes lock.now pass.old) answer (own_note D.bytes lock.now pass.new)) }
{
    let _ = passed;
    match reach(rt, lock, pass, queued, co) {
        Lock::Queued(named) => Visit::Waits(named),
        Lock::Held(mut guard) => {
            let answer = image_calls::enter(guard.value(), co, request);
            Visit::Did(answer, lock.unlock(rt, pass, guard))
        }
    }
}

/// Takes up the stream's hold, if it was granted, and serves the first piece of its request.
pub fn take_up<D: Device, R: Wait>(
    rt: &R,
    lock: &CoMutex<ImageRule<D>>,
    pass: &mut Pass<ImageRule<D>>,
    queued: bool,
    co: CoId,
    request: &Request,
    buffer: &mut [u8],
) -> Visit<Grant>
    requires of { IsOwnPass D.bytes lock.now pass.old co.co queued }
    requires waits { IsWaitingFor (own_note D.bytes lock.now pass.old).phase co.co request.now }
    requires room { HasRoom request.now buffer.old }
    ensures turn { Turned D.bytes lock.now (λ answer found left. TakesUp D.bytes co request.now buffer.old buffer.new answer found left) co queued pass.old result pass.new }
    ensures same { OnWaits result (buffer.new ≡ buffer.old) }
    ensures taken { OnDid result (λ answer. IsTakenUp D.bytes co.co request.now (own_note D.bytes lock.now pass.old) buffer.old answer (own_note D.bytes lock.now pass.new) buffer.new) }
{
    match reach(rt, lock, pass, queued, co) {
        Lock::Queued(named) => Visit::Waits(named),
        Lock::Held(mut guard) => {
            let answer = image_calls::take_up(guard.value(), co, request, buffer);
            Visit::Did(answer, lock.unlock(rt, pass, guard))
        }
    }
}

/// Serves the next piece of the stream's request.
pub fn serve<D: Device, R: Wait>(
    rt: &R,
    lock: &CoMutex<ImageRule<D>>,
    pass: &mut Pass<ImageRule<D>>,
    queued: bool,
    co: CoId,
    request: &Request,
    buffer: &mut [u8],
) -> Visit<Piece>
    requires of { IsOwnPass D.bytes lock.now pass.old co.co queued }
    requires serving { IsServing (own_note D.bytes lock.now pass.old).phase co.co request.now (done_in (own_note D.bytes lock.now pass.old).phase) }
    requires room { HasRoom request.now buffer.old }
    ensures turn { Turned D.bytes lock.now (λ answer found left. Serves D.bytes co.co request.now (done_in (phase_at found.phases co.co)) answer (come_to co found) left buffer.old buffer.new) co queued pass.old result pass.new }
    ensures same { OnWaits result (buffer.new ≡ buffer.old) }
    ensures served { OnDid result (λ answer. IsPieceServed D.bytes co.co request.now answer (own_note D.bytes lock.now pass.old) buffer.old (own_note D.bytes lock.now pass.new) buffer.new) }
{
    match reach(rt, lock, pass, queued, co) {
        Lock::Queued(named) => Visit::Waits(named),
        Lock::Held(mut guard) => {
            let answer = image_calls::serve(guard.value(), co, request, buffer);
            Visit::Did(answer, lock.unlock(rt, pass, guard))
        }
    }
}

/// Gives the stream's request its place, and answers whom to wake.
pub fn leave<D: Device, R: Wait>(
    rt: &R,
    lock: &CoMutex<ImageRule<D>>,
    pass: &mut Pass<ImageRule<D>>,
    queued: bool,
    co: CoId,
) -> Visit<Option<CoId>>
    requires of { IsOwnPass D.bytes lock.now pass.old co.co queued }
    requires ended { CanLeave (own_note D.bytes lock.now pass.old).phase }
    ensures turn { Turned D.bytes lock.now (λ woken found left. LeavesSo co woken found left) co queued pass.old result pass.new }
    ensures left { OnDid result (λ answer. HasLeft D.bytes co.co (own_note D.bytes lock.now pass.old) (own_note D.bytes lock.now pass.new)) }
{
    match reach(rt, lock, pass, queued, co) {
        Lock::Queued(named) => Visit::Waits(named),
        Lock::Held(mut guard) => {
            let answer = image_calls::leave(guard.value(), co);
            Visit::Did(answer, lock.unlock(rt, pass, guard))
        }
    }
}

/// Retires the stream, and answers how many haven't retired yet.
pub fn retire<D: Device, R: Wait>(
    rt: &R,
    lock: &CoMutex<ImageRule<D>>,
    pass: &mut Pass<ImageRule<D>>,
    queued: bool,
    co: CoId,
) -> Visit<u32>
    requires of { IsOwnPass D.bytes lock.now pass.old co.co queued }
    requires idle { (own_note D.bytes lock.now pass.old).phase ≡ Idle }
    requires all { length (own_note D.bytes lock.now pass.old).entries ≡ (own_note D.bytes lock.now pass.old).requests }
    ensures turn { Turned D.bytes lock.now (λ going found left. Retires co going found left) co queued pass.old result pass.new }
    ensures retired { OnDid result (λ answer. NoteHasRetired D.bytes co.co (own_note D.bytes lock.now pass.old) (own_note D.bytes lock.now pass.new)) }
{
    match reach(rt, lock, pass, queued, co) {
        Lock::Queued(named) => Visit::Waits(named),
        Lock::Held(mut guard) => {
            let answer = image_calls::retire(guard.value(), co);
            Visit::Did(answer, lock.unlock(rt, pass, guard))
        }
    }
}
