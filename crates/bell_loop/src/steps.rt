//! The calls of home on the shared loop. Where home alone makes its history, each does to a log what the commands of a loop script are
//! defined by.
ghost use Rattle.std.specs.Prelude.{◌≡◌, ◌≤◌, ◌<◌, ◌-◌, ◌^◌, ℕ, [], true, false, map, MatchBool};
ghost use Rattle.aio_model.specs.declared.scripts.loop_replies.LoopReply.{LoopReply};
ghost use Rattle.aio_model.specs.declared.scripts.loop_scripts.Command.{Command};
ghost use Rattle.aio_model.specs.Loop.Log.{flags_before, enqueued_log, canceled_log, set_log, is_set_in, cleared_log};
ghost use Rattle.aio_model.specs.Loop.Seats as Seats;
ghost use Rattle.aio_model.specs.Loop.Flags.{is_pending, lives};
ghost use Rattle.aio_model.specs.Loop.Lists.{is_set};
ghost use Rattle.aio_core.specs.Standing.{asks_of_kind};
ghost use Rattle.aio_core.specs.Calls.{IsSeatOf, first_seat};
ghost use Rattle.aio_core.specs.Known.{is_running};
ghost use Rattle.aio_core.specs.Scans.{SameButSleep};
ghost use Rattle.aio_bh.specs.OneShots.{IsPoolFor, ServesHome};
ghost use Rattle.lot_pool.specs.Pools.{IsPassOf};
ghost use Rattle.bell_loop.specs.Entering.{acts_at, CanRun, NamesCalled};
ghost use Rattle.aio_notify.specs.Commits.{IsAwakeBy};
ghost use Rattle.bell_loop.specs.Ending.{IsCommitted};
ghost use Rattle.bell_loop.specs.Running.{AnswersSeen, Calm, Finds, Idles, IsAlone, GoesTo, OnlyOthers, PlacesTag, SameButSeen};

use crate::callbacks::Callbacks;
use crate::tag::Tag;
use aio_bh::{BottomHalves, LotPass, LotPool, Polled};
use aio_core::{Home, LoopTable, Scanned, Seat};
use aio_model::{Commit, Flags, Kind};
use aio_notify::{LoopEnd, LoopEvents, Settled, Sleeping, settle};
use std::sync::Wait;

/// An enqueue of a handle.
pub(crate) fn enqueue<R: Wait>(
    rt: &R,
    table: &LoopTable<Tag>,
    seat: &mut Seat<Tag>,
    bh: u32,
    kind: Kind,
) -> Flags
    requires idles { Idles table.now seat.old }
    requires handle { bh < table.now.sizes.handles }
    ensures idles { Idles table.now seat.new }
    ensures goes { GoesTo (enqueued_log bh (asks_of_kind kind) Seats.home) (λ log. result ≡ flags_before bh log) seat.old.known.seen seat.new.known.seen }
    ensures same { SameButSeen seat.old.known seat.new.known }
{
    match kind {
        Kind::Sched => table.schedule(rt, seat, bh),
        Kind::Idle => table.schedule_idle(rt, seat, bh),
        Kind::Del => table.delete(rt, seat, bh),
    }
}

/// The end of an enqueue of a handle.
pub(crate) fn cancel(table: &LoopTable<Tag>, seat: &mut Seat<Tag>, bh: u32) -> Flags
    requires idles { Idles table.now seat.old }
    requires handle { bh < table.now.sizes.handles }
    ensures idles { Idles table.now seat.new }
    ensures goes { GoesTo (canceled_log bh Seats.home) (λ log. result ≡ flags_before bh log) seat.old.known.seen seat.new.known.seen }
    ensures same { SameButSeen seat.old.known seat.new.known }
{
    table.cancel(seat, bh)
}

pub(crate) fn set(table: &LoopTable<Tag>, seat: &mut Seat<Tag>, event: u32)
    requires idles { Idles table.now seat.old }
    requires event { event < table.now.sizes.events }
    ensures idles { Idles table.now seat.new }
    ensures goes { GoesTo (set_log event Seats.home) (λ _. Unit {0}) seat.old.known.seen seat.new.known.seen }
    ensures same { SameButSeen seat.old.known seat.new.known }
{
    table.set_event(seat, event);
}

/// Whether the event was set.
pub(crate) fn clear(table: &LoopTable<Tag>, home: &mut Home<Tag>, event: u32) -> bool
    requires idles { Idles table.now home.old.seat }
    requires event { event < table.now.sizes.events }
    ensures idles { Idles table.now home.new.seat }
    ensures goes { GoesTo (cleared_log event) (λ log. result ≡ is_set_in event log) home.old.seat.known.seen home.new.seat.known.seen }
    ensures same { SameButSeen home.old.seat.known home.new.seat.known }
{
    table.clear_event(home, event)
}

/// A poll, whose callbacks are those of the script. Who was called, and whether it notified, is kept with the callbacks.
pub(crate) fn poll<'a, R: Wait>(
    rt: &R,
    table: &LoopTable<Tag>,
    pool: &LotPool,
    pass: &mut LotPass,
    home: &mut Home<Tag>,
    callbacks: &mut Callbacks<'a, R>,
) -> Polled
    requires idles { Idles table.now home.old.seat }
    requires serves { ServesHome table.now.sizes pool.now pass.old }
    requires can { CanRun table.now.sizes.handles (map (λ l. l.items) callbacks.old.lists.now) callbacks.old.waiting }
    requires none { callbacks.old.waiting ≡ [] }
    requires names { NamesCalled callbacks.old.ran callbacks.old.more [] }
    ensures idles { Idles table.now home.new.seat }
    ensures serves { ServesHome table.now.sizes pool.now pass.new }
    ensures lists { callbacks.new.lists ≡ callbacks.old.lists }
    ensures can { CanRun table.now.sizes.handles (map (λ l. l.items) callbacks.old.lists.now) callbacks.new.waiting }
    ensures none { callbacks.new.waiting ≡ [] }
    ensures answers { AnswersSeen table.now.sizes (acts_at (map (λ l. l.items) callbacks.old.lists.now)) Command.Poll (LoopReply.Ran callbacks.new.ran callbacks.new.more result.progress result.cut_nests) callbacks.old.rang callbacks.new.rang home.old.seat.known.seen home.new.seat.known.seen }
    ensures none_lives { IsAlone home.new.seat.known.seen → Calm home.old.seat.known.seen → (i : ℕ) → lives i home.new.seat.known.seen ≡ false }
    ensures none_pending { ((bh : ℕ) → acts_at (map (λ l. l.items) callbacks.old.lists.now) bh ≡ []) → IsAlone home.new.seat.known.seen → Calm home.old.seat.known.seen → (i : ℕ) → is_pending i home.new.seat.known.seen ≡ false }
    ensures events { IsAlone home.new.seat.known.seen → (e : ℕ) → is_set e home.new.seat.known.seen ≡ is_set e home.old.seat.known.seen }
{
    table.poll(rt, pool, pass, home, callbacks)
}

/// One try to place a one-shot in some lot of the pool. `living` counts it where it was placed.
fn try_once<R: Wait>(
    rt: &R,
    table: &LoopTable<Tag>,
    pool: &LotPool,
    pass: &mut LotPass,
    seat: &mut Seat<Tag>,
    tag: u32,
    living: &mut u32,
) -> bool
    requires idles { Idles table.now seat.old }
    requires pool { IsPoolFor table.now.sizes pool.now }
    requires pass { IsPassOf pool.now pass.old }
    requires few { table.now.sizes.lots ≤ 4096 }
    ensures idles { Idles table.now seat.new }
    ensures pass { IsPassOf pool.now pass.new }
    ensures same { SameButSeen seat.old.known seat.new.known }
    ensures placed { MatchBool result (PlacesTag table.now.sizes tag living.old living.new seat.old.known.seen seat.new.known.seen) ((living.new ≡ living.old) × (seat.new.known.seen ≡ seat.old.known.seen)) }
{
    match table.once(rt, pool, pass, seat, Tag { tag }) {
        Ok(()) => {
            *living = living.saturating_add(1);
            true
        }
        Err(_) => false,
    }
}

/// A one-shot in some lot of the pool. False where every lot lives: `living` are so many, and counts this one. Where the pool is
/// found empty and some lot doesn't live, it is tried again.
pub(crate) fn once<R: Wait>(
    rt: &R,
    table: &LoopTable<Tag>,
    pool: &LotPool,
    pass: &mut LotPass,
    seat: &mut Seat<Tag>,
    tag: u32,
    living: &mut u32,
) -> bool
    requires idles { Idles table.now seat.old }
    requires pool { IsPoolFor table.now.sizes pool.now }
    requires pass { IsPassOf pool.now pass.old }
    ensures idles { Idles table.now seat.new }
    ensures pass { IsPassOf pool.now pass.new }
    ensures same { SameButSeen seat.old.known seat.new.known }
    ensures placed { MatchBool result (PlacesTag table.now.sizes tag living.old living.new seat.old.known.seen seat.new.known.seen) ((living.new ≡ living.old) × (seat.new.known.seen ≡ seat.old.known.seen) × (living.old ≡ table.now.sizes.lots)) }
{
    let lots = table.indices() - table.handles();
    for _ in rt.forever() {
        if try_once(rt, table, pool, pass, seat, tag, living) {
            return true;
        }
        if *living == lots {
            return false;
        }
    }
    unreachable!()
}

/// Looks at all that was pushed, as a home does that is about to sleep.
pub(crate) fn look(table: &LoopTable<Tag>, home: &mut Home<Tag>) -> Scanned
    requires idles { Idles table.now home.old.seat }
    ensures idles { Idles table.now home.new.seat }
    ensures others { OnlyOthers home.old.seat.known.seen home.new.seat.known.seen }
    ensures finds { IsAlone home.new.seat.known.seen → Calm home.old.seat.known.seen → Finds table.now.sizes result.urgent result.idle home.new.seat.known.seen }
{
    table.scan(home)
}

/// Ends the sleep, where home committed to one.
fn wake(table: &LoopTable<Tag>, home: &mut Home<Tag>, commit: Commit)
    requires seat { IsSeatOf table.now home.old.seat }
    requires awake { IsAwakeBy (2 ^ 64 - 1) table.now.sizes.events commit home.old.seat.known }
    ensures seat { IsSeatOf table.now home.new.seat }
    ensures running { is_running home.new.seat.known.sleep ≡ true }
    ensures seen { home.new.seat.known.seen ≡ home.old.seat.known.seen }
    ensures same { SameButSleep home.old.seat.known home.new.seat.known }
{
    match commit {
        Commit::Sleep(_) => table.disarm(home),
        Commit::Awake(_) => {}
    }
}

/// A commit that watches all events and has no deadline, the end of the sleep where it came to one, and an accept.
pub(crate) fn sleep_and_accept(table: &LoopTable<Tag>, home: &mut Home<Tag>)
    requires idles { Idles table.now home.old.seat }
    ensures idles { Idles table.now home.new.seat }
    ensures others { OnlyOthers home.old.seat.known.seen home.new.seat.known.seen }
{
    let commit = table.commit(home, u64::MAX, None, 0);
    wake(table, home, commit);
    table.accept(home);
}

/// An accept, and then a commit that watches all events and has no deadline. Whether home is committed now.
fn accept_and_commit(table: &LoopTable<Tag>, home: &mut Home<Tag>) -> bool
    requires idles { Idles table.now home.old.seat }
    ensures others { OnlyOthers home.old.seat.known.seen home.new.seat.known.seen }
    ensures sleeps { MatchBool result (IsCommitted table.now home.new.seat) (Idles table.now home.new.seat) }
{
    table.accept(home);
    match table.commit(home, u64::MAX, None, 0) {
        Commit::Sleep(_) => true,
        Commit::Awake(_) => false,
    }
}

/// Accepts and commits until home is committed.
pub(crate) fn fall_asleep<R: Wait>(rt: &R, table: &LoopTable<Tag>, home: &mut Home<Tag>)
    requires idles { Idles table.now home.old.seat }
    ensures sleeps { IsCommitted table.now home.new.seat }
    ensures others { OnlyOthers home.old.seat.known.seen home.new.seat.known.seen }
{
    for _ in rt.forever() {
        if accept_and_commit(table, home) {
            return;
        }
    }
    unreachable!()
}

/// Ends the loop, in which home alone made entries, and left nothing pending and no event set.
pub(crate) fn settled(table: LoopTable<Tag>, home: Home<Tag>, others: Seat<Tag>) -> LoopEnd<Tag>
    requires sleeps { IsCommitted table home.seat }
    requires of { IsSeatOf table others }
    requires new { others.known ≡ first_seat table.sizes }
    requires none_pending { IsAlone home.seat.known.seen → (i : ℕ) → is_pending i home.seat.known.seen ≡ false }
    requires none_set { IsAlone home.seat.known.seen → (e : ℕ) → e < table.sizes.events → is_set e home.seat.known.seen ≡ false }
    ensures alone { IsAlone home.seat.known.seen }
    ensures seen { result.known.seen ≡ home.seat.known.seen }
{
    match settle(table, home, others) {
        Settled::Quiet(end) => end,
        Settled::Pending(..) => unreachable!(),
        Settled::Event(..) => unreachable!(),
    }
}
