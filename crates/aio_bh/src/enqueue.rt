//! Enqueues from any thread, after qemu_bh_schedule, qemu_bh_schedule_idle and qemu_bh_delete of QEMU's util/async.c. Each ends
//! with a notify, also where the index was pending, so that a home about to sleep hears of it.
ghost use Rattle.std.specs.Prelude.{◌≡◌, ◌<◌, ◌∷◌, [], MatchResult, false};
ghost use Rattle.aio_model.specs.Loop.History.{Put as pushed, Enqueue as enqueued};
ghost use Rattle.aio_model.specs.Loop.InFlight.{AtRest, Announced as announced, ToStore, ForIndex};
ghost use Rattle.aio_core.specs.Standing.{asks_of_kind};
ghost use Rattle.aio_core.specs.Calls.{IsSeatOf, IsReady};
ghost use Rattle.aio_bh.specs.Enqueuing.{MissesOnce, PushesOnce, PushesAndNotifies, PushesInTheEnd, Schedules, enqueue_entries, AddsOnly};
ghost use Rattle.aio_bh.specs.Puts.{TriedToPut};

use crate::put::Put;
use aio_core::{Announced, Job, LoopTable, Seat};
use aio_model::{Flags, Kind};
use aio_notify::Notify;
use std::sync::Wait;

/// One more try to push an index that the seat has announced. Err gives the debt back, where another head was found.
#[inline(always)]
fn try_to_push<J: Job>(
    table: &LoopTable<J>,
    seat: &mut Seat<J>,
    owed: Announced,
) -> Result<(), Announced>
    requires seat { IsSeatOf table.now seat.old }
    requires phase { seat.old.known.phase ≡ announced owed }
    ensures seat { IsSeatOf table.now seat.new }
    ensures step { MatchResult result (λ _. PushesOnce owed seat.old.known seat.new.known) (λ again. (again ≡ owed) × MissesOnce owed seat.old.known seat.new.known) }
    ensures phase { MatchResult result (λ _. seat.new.known.phase ≡ ToStore (ForIndex owed)) (λ again. seat.new.known.phase ≡ announced again) }
{
    let aimed = table.aim(seat, owed);
    table.link(seat, aimed)
}

/// One more try to push an index that the seat has announced, with the notify where it pushed.
#[inline(always)]
pub fn push_and_notify<J: Job>(
    table: &LoopTable<J>,
    seat: &mut Seat<J>,
    owed: Announced,
) -> Result<(), Announced>
    requires seat { IsSeatOf table.now seat.old }
    requires phase { seat.old.known.phase ≡ announced owed }
    ensures seat { IsSeatOf table.now seat.new }
    ensures step { MatchResult result (λ _. PushesAndNotifies owed seat.old.known seat.new.known × (seat.new.known.phase ≡ AtRest)) (λ again. (again ≡ owed) × MissesOnce owed seat.old.known seat.new.known × (seat.new.known.phase ≡ announced again)) }
{
    try_to_push(table, seat, owed)?;
    table.notify(seat);
    Ok(())
}

/// Pushes an index that the seat has announced, trying until it succeeds, and notifies. Rare: another thread pushed at the same
/// time, or home took the list.
#[cold]
pub fn push_in_the_end<J: Job, R: Wait>(
    rt: &R,
    table: &LoopTable<J>,
    seat: &mut Seat<J>,
    owed: Announced,
)
    requires seat { IsSeatOf table.now seat.old }
    requires phase { seat.old.known.phase ≡ announced owed }
    ensures seat { IsReady table.now seat.new }
    ensures steps { PushesInTheEnd owed seat.old.known seat.new.known }
{
    let mut owed = owed;
    for _ in rt.forever() {
        match push_and_notify(table, seat, owed) {
            Ok(()) => return,
            Err(again) => owed = again,
        }
    }
    unreachable!()
}

/// An enqueue of this kind that tries once to push.
#[inline(always)]
pub fn try_schedule_as<J: Job>(table: &LoopTable<J>, seat: &mut Seat<J>, bh: u32, kind: Kind) -> Put
    requires seat { IsReady table.now seat.old }
    requires handle { bh < table.now.sizes.handles }
    ensures seat { IsSeatOf table.now seat.new }
    ensures put { TriedToPut bh (asks_of_kind kind) result seat.old.known seat.new.known }
{
    let (flags, owed) = table.announce(seat, bh, kind);
    let Some(owed) = owed else {
        table.notify(seat);
        return Put::Done(flags);
    };
    match push_and_notify(table, seat, owed) {
        Ok(()) => Put::Done(flags),
        Err(owed) => Put::Owed(flags, owed),
    }
}

/// An enqueue of this kind that tries until it has pushed.
#[inline(always)]
pub fn schedule_as<J: Job, R: Wait>(
    rt: &R,
    table: &LoopTable<J>,
    seat: &mut Seat<J>,
    bh: u32,
    kind: Kind,
) -> Flags
    requires seat { IsReady table.now seat.old }
    requires handle { bh < table.now.sizes.handles }
    ensures seat { IsReady table.now seat.new }
    ensures steps { Schedules bh (asks_of_kind kind) result seat.old.known seat.new.known }
    ensures stands { AddsOnly (enqueue_entries bh (asks_of_kind kind) seat.old.known.first result) seat.old.known seat.new.known }
{
    match try_schedule_as(table, seat, bh, kind) {
        Put::Done(flags) => flags,
        Put::Owed(flags, owed) => {
            push_in_the_end(rt, table, seat, owed);
            flags
        }
    }
}
