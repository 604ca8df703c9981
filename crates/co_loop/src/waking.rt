//! Wakes that a coroutine asked for in a resume are carried out after it, after aio_co_wake of QEMU's util/async.c.
ghost use Rattle.std.specs.Prelude.{◌≡◌, ◌<◌, ℕ, ◌++◌, ◌∷◌, [], ◌==◌, ◌&&◌, nat_lt, length, if◌then◌else◌};
ghost use Rattle.aio_chain.specs.LinkList.{contains};
ghost use Rattle.co_loop.specs.Rows.{AreSeatsOfLoops, ChangesOne};
ghost use Rattle.co_loop.specs.Posts.{WakesAt};
ghost use Rattle.co_loop.specs.Wakes.{queued, is_somebody, reach, WakesOne, WakesEach};

use crate::posting::post_to;
use aio_model::Cause;
use co_state::{CoId, Cx, Origin};
use co_waits::CoQueue;
use loop_rows::{LoopShared, Seats};
use std::sync::Wait;

/// Puts a coroutine of this loop behind those that are to be entered. One that stands there already stays where it is.
pub(crate) fn queue(woken: &mut CoQueue, co: u32)
    requires below { co < woken.old.room }
    ensures items { woken.new.items ≡ queued co woken.old.items }
    ensures room { woken.new.room ≡ woken.old.room }
{
    if !woken.has(co) {
        woken.wait(co);
    }
}

/// Posts a wake to another loop. Where the coroutine has a mark there, it was scheduled and not entered yet: it will be entered
/// anyway, and nothing is left to do.
fn wake_at<C: Origin + Drop, W: Wait>(
    rt: &W,
    shared: &[LoopShared<C>],
    seats: &mut Vec<Seats<C>>,
    coroutines: u32,
    to: u32,
    co: u32,
)
    requires row { AreSeatsOfLoops coroutines shared.now seats.old.items }
    requires to { to < length shared.now }
    requires below { co < coroutines }
    ensures row { AreSeatsOfLoops coroutines shared.now seats.new.items }
    ensures wakes { ChangesOne to (WakesAt co) seats.old.items seats.new.items }
{
    // A coroutine that has its mark already is entered for that mark, which does as well as a second one.
    let _posted = post_to(rt, shared, seats, coroutines, to, co, Cause::Wake, None);
}

/// Whether there is such a loop, and such a coroutine.
fn exists(coroutines: u32, loops: usize, id: CoId) -> bool
    ensures { result ≡ is_somebody coroutines loops id }
{
    id.co < coroutines && (id.home as usize) < loops
}

/// Wakes one coroutine. A wake of nobody, by a number that no coroutine or no loop has, is passed over.
fn wake<C: Origin + Drop, W: Wait>(
    rt: &W,
    shared: &[LoopShared<C>],
    seats: &mut Vec<Seats<C>>,
    woken: &mut CoQueue,
    coroutines: u32,
    own: u32,
    id: CoId,
)
    requires row { AreSeatsOfLoops coroutines shared.now seats.old.items }
    requires room { woken.old.room ≡ coroutines }
    ensures row { AreSeatsOfLoops coroutines shared.now seats.new.items }
    ensures room { woken.new.room ≡ coroutines }
    ensures wakes { WakesOne own coroutines (length shared.now) id (reach woken.old.items seats.old.items) (reach woken.new.items seats.new.items) }
{
    if !exists(coroutines, shared.len(), id) {
        return;
    }
    if id.home == own {
        queue(woken, id.co);
        return;
    }
    wake_at(rt, shared, seats, coroutines, id.home, id.co);
}

/// Wakes all that a resume asked to wake, in order.
pub(crate) fn wake_each<C: Origin + Drop, W: Wait>(
    rt: &W,
    shared: &[LoopShared<C>],
    seats: &mut Vec<Seats<C>>,
    woken: &mut CoQueue,
    coroutines: u32,
    own: u32,
    cx: &mut Cx,
)
    requires row { AreSeatsOfLoops coroutines shared.now seats.old.items }
    requires room { woken.old.room ≡ coroutines }
    ensures row { AreSeatsOfLoops coroutines shared.now seats.new.items }
    ensures room { woken.new.room ≡ coroutines }
    ensures wakes { WakesEach own coroutines (length shared.now) cx.old.wakes (reach woken.old.items seats.old.items) (reach woken.new.items seats.new.items) }
    ensures rest { cx.new ≡ record cx.old { wakes = [] } }
{
    while let Some(id) = cx.taken() {
        wake(rt, shared, seats, woken, coroutines, own, id);
    }
}
