//! A turn that sleeps, and another thread that wakes it.
ghost use Rattle.std.specs.Prelude.{◌≡◌, ◌<◌, ◌≤◌, IsFalse};
ghost use Rattle.std.specs.Thread.{IsSync};
ghost use Rattle.aio_bh.specs.OneShots.{ServesHome};
ghost use Rattle.aio_loop.specs.Homes.{IsHomeFree};
ghost use Rattle.aio_core.specs.Calls.{IsReady};

use crate::notes::{Entry, Notes};
use crate::parts::Parts;
use aio_bh::{BottomHalves, LotBuilt};
use aio_core::{LoopTable, Seat};
use aio_loop::{AioLoop, Turned};
use aio_words::Clock;
use std::process::Abort;
use std::sync::Wait;
use std::sync::atomic::{AtomicU64, Ordering};
use std::test::Fail;
use std::thread::{Threads, join, yield_now};

/// A clock that stands still, and tells that somebody pauses. Home pauses only once it is committed and found nobody's notify.
#[derive(Drop)]
struct Asleep<'a> {
    now: u64,
    pauses: &'a AtomicU64,
}

impl<'a> Clock for Asleep<'a> {
    ghost use Rattle.std.specs.Prelude.{◌≡◌, ◌≤◌};

    ghost time = { λ clock. clock.now };

    fn now(&mut self) -> u64
        ensures later { self.old.now ≤ result }
        ensures shown { self.new.now ≡ result }
    {
        self.now
    }

    fn pause(&mut self, _ns: u64)
        ensures { self.old.now ≤ self.new.now }
    {
        self.pauses.fetch_add(1, Ordering::SeqCst);
        yield_now();
    }
}

/// What a turn told, and what its runner was entered for.
#[derive(Clone, Copy)]
struct Slept {
    turned: Turned,
    first: Entry,
    count: usize,
}

/// A turn that blocks.
fn turn_once<R: Wait>(rt: &R, home_loop: AioLoop<'_, u64>, pauses: &AtomicU64) -> Slept
    requires lots { ServesHome home_loop.table.now.sizes home_loop.pool.now home_loop.lot_pass }
    requires home { IsHomeFree home_loop.table.now home_loop.home.seat }
    requires walking { IsFalse home_loop.side.handlers.walking }
{
    let mut home_loop = home_loop;
    let mut notes = Notes::none();
    let mut clock = Asleep { now: 5, pauses };
    let turned = home_loop.turn(rt, &mut notes, &mut clock, true);
    Slept {
        turned,
        first: notes.entries[0],
        count: notes.count,
    }
}

/// Waits until home has paused.
fn until_asleep<R: Wait>(rt: &R, pauses: &AtomicU64) {
    for _ in rt.forever() {
        if pauses.load(Ordering::SeqCst) > 0 {
            return;
        }
        yield_now();
    }
    unreachable!()
}

/// Schedules once home has paused.
fn wake<R: Wait>(rt: &R, table: &LoopTable<u64>, seat: Seat<u64>, pauses: &AtomicU64)
    requires seat { IsReady table.now seat }
    requires handle { 0 < table.now.sizes.handles }
{
    let mut seat = seat;
    until_asleep(rt, pauses);
    table.schedule(rt, &mut seat, 0);
}

/// Home turns on a thread of its own, and another thread wakes it.
fn on_two_threads<R: Threads + Wait + Sync>(
    rt: &R,
    home_loop: AioLoop<'_, u64>,
    table: &LoopTable<u64>,
    seat: Seat<u64>,
) -> Slept
    requires lots { ServesHome home_loop.table.now.sizes home_loop.pool.now home_loop.lot_pass }
    requires home { IsHomeFree home_loop.table.now home_loop.home.seat }
    requires walking { IsFalse home_loop.side.handlers.walking }
    requires seat { IsReady table.now seat }
    requires handle { 0 < table.now.sizes.handles }
{
    let pauses = AtomicU64::new(0);
    let (slept, ()) = join(
        rt,
        || -> Slept
            requires { ServesHome home_loop.table.now.sizes home_loop.pool.now home_loop.lot_pass × IsHomeFree home_loop.table.now home_loop.home.seat × IsFalse home_loop.side.handlers.walking }
        { turn_once(rt, home_loop, &pauses) },
        || -> ()
            requires { IsReady table.now seat × (0 < table.now.sizes.handles) }
        { wake(rt, table, seat, &pauses) },
    );
    slept
}

/// The timer of the loop never expires on this clock, so that only the other thread ends the sleep.
#[test]
fn another_thread_wakes_a_turn_that_sleeps(rt: HostRuntime) -> Result<(), Fail> {
    let Parts {
        table,
        home,
        seat,
        lots,
        mut side,
        timer,
    } = Parts::build(&rt, rt.alloc())?;
    let LotBuilt {
        pool,
        home: lot_pass,
        pass: _,
    } = lots;
    side.timers.arm(timer, 1_000);
    let home_loop = AioLoop {
        table: &table,
        pool: &pool,
        lot_pass,
        home,
        side,
    };
    let slept = on_two_threads(&rt, home_loop, &table, seat);
    assert_eq!(rt; (slept.turned.progress, slept.turned.slept), (true, true));
    assert_eq!(rt; (slept.first, slept.count), (Entry::Bottom(0), 1));
    Ok(())
}
