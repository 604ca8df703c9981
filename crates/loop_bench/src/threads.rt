//! Two threads schedule while the home polls, until each has said by a handle of its own that it is done.
ghost use Rattle.std.specs.Prelude.{◌≡◌, ◌<◌};
ghost use Rattle.std.specs.Thread.{IsSync};
ghost use Rattle.aio_model.specs.Loop.InFlight.{Announced as announced};
ghost use Rattle.aio_core.specs.Calls.{IsSeatOf, IsReady};
ghost use Rattle.aio_bh.specs.OneShots.{ServesHome};
ghost use Rattle.aio_bh.specs.Ready.{IsBetweenPolls};

use crate::calls::HANDLES;
use aio_bh::{BottomHalves, Call, LotBuilt, LotPool, Put, Runner, Turn};
use aio_core::{Announced, Built, Home, LoopTable, Seat};
use aio_model::Flags;
use std::alloc::Global;
use std::io;
use std::sync::Wait;
use std::thread::{Threads, join};

/// How often each of the two threads schedules a handle.
const SCHEDULES: u32 = 1_000_000;

/// The handles that the two threads schedule over and over stand before those by which they say that they are done.
const SHARED: u32 = 62;

/// How many callbacks were called, and how many threads have said so that they are done.
#[derive(Drop)]
struct Called {
    count: u64,
    ended: u64,
}

impl Runner<u64> for Called {
    ghost use Rattle.std.specs.Prelude.{true};

    ghost can_run = { λ _ _. true ≡ true };

    ghost does = { λ _ _ _. true ≡ true };

    fn run(
        &mut self,
        _table: &LoopTable<u64>,
        _seat: &mut Seat<u64>,
        call: &mut Call<u64>,
    ) -> Turn {
        self.count = self.count.wrapping_add(1);
        if call.bh >= SHARED {
            self.ended = self.ended.wrapping_add(1);
        }
        Turn::Done
    }
}

/// What a thread's schedules came to.
#[derive(Clone, Copy)]
pub struct Pushes {
    /// How many handles were not pending, and so were pushed.
    pub announced: u64,
    /// How many tries to push found that another had pushed, or that home had taken the list.
    pub missed: u64,
}

impl Pushes {
    fn none() -> Pushes {
        Pushes {
            announced: 0,
            missed: 0,
        }
    }

    fn note(&mut self, found: Flags) {
        if !found.pending {
            self.announced = self.announced.wrapping_add(1);
        }
    }

    fn and(self, other: Pushes) -> Pushes {
        Pushes {
            announced: self.announced.wrapping_add(other.announced),
            missed: self.missed.wrapping_add(other.missed),
        }
    }
}

/// Pushes what one try has missed, and tells how many tries missed.
fn push_in_the_end<R: Wait>(
    rt: &R,
    table: &LoopTable<u64>,
    seat: &mut Seat<u64>,
    owed: Announced,
) -> u64
    requires seat { IsSeatOf table.now seat.old }
    requires phase { seat.old.known.phase ≡ announced owed }
    ensures ready { IsReady table.now seat.new }
{
    let mut owed = owed;
    let mut missed = 1u64;
    for _ in rt.forever() {
        match table.push_owed(seat, owed) {
            Ok(()) => return missed,
            Err(again) => {
                owed = again;
                missed = missed.wrapping_add(1);
            }
        }
    }
    unreachable!()
}

/// Schedules a handle.
fn schedule_one<R: Wait>(
    rt: &R,
    table: &LoopTable<u64>,
    seat: &mut Seat<u64>,
    bh: u32,
    pushes: &mut Pushes,
)
    requires ready { IsReady table.now seat.old }
    requires handle { bh < table.now.sizes.handles }
    ensures ready { IsReady table.now seat.new }
{
    match table.try_schedule(seat, bh) {
        Put::Done(found) => pushes.note(found),
        Put::Owed(found, owed) => {
            pushes.note(found);
            let missed = push_in_the_end(rt, table, seat, owed);
            pushes.missed = pushes.missed.wrapping_add(missed);
        }
    }
}

/// Schedules one handle after another, and then the one by which it says that it is done.
fn schedule_all<R: Wait>(rt: &R, table: &LoopTable<u64>, seat: Seat<u64>, done: u32) -> Pushes
    requires ready { IsReady table.now seat }
    requires handles { table.now.sizes.handles ≡ 64 }
    requires done { done < 64 }
{
    let mut seat = seat;
    let mut pushes = Pushes::none();
    for turn in 0..SCHEDULES {
        schedule_one(
            rt,
            table,
            &mut seat,
            (turn * 7 + done) % SHARED,
            &mut pushes,
        );
    }
    schedule_one(rt, table, &mut seat, done, &mut pushes);
    pushes
}

/// Two seats at once.
fn both_schedule<R: Threads + Wait + Sync>(
    rt: &R,
    table: &LoopTable<u64>,
    first: Seat<u64>,
    second: Seat<u64>,
) -> Pushes
    requires first { IsReady table.now first }
    requires second { IsReady table.now second }
    requires handles { table.now.sizes.handles ≡ 64 }
{
    let (low, high) = join(
        rt,
        || -> Pushes
            requires { IsReady table.now first × (table.now.sizes.handles ≡ 64) }
        { schedule_all(rt, table, first, 62) },
        || -> Pushes
            requires { IsReady table.now second × (table.now.sizes.handles ≡ 64) }
        { schedule_all(rt, table, second, 63) },
    );
    low.and(high)
}

/// Polls until both threads are done, and tells how many calls were made.
fn poll_all<R: Wait>(rt: &R, table: &LoopTable<u64>, lots: LotBuilt, home: Home<u64>) -> u64
    requires lots { ServesHome table.now.sizes lots.pool lots.home }
    requires seat { IsBetweenPolls table.now home.seat }
{
    let mut lots = lots;
    let mut home = home;
    let mut called = Called { count: 0, ended: 0 };
    for _ in 0..u64::MAX {
        if called.ended >= 2 {
            break;
        }
        table.poll(rt, &lots.pool, &mut lots.home, &mut home, &mut called);
    }
    called.count
}

/// What the two threads' schedules came to, and how many calls were made.
fn pushed_and_called<R: Threads + Wait + Sync>(
    rt: &R,
    table: &LoopTable<u64>,
    lots: LotBuilt,
    home: Home<u64>,
    first: Seat<u64>,
    second: Seat<u64>,
) -> (Pushes, u64)
    requires lots { ServesHome table.now.sizes lots.pool lots.home }
    requires home { IsBetweenPolls table.now home.seat }
    requires first { IsReady table.now first }
    requires second { IsReady table.now second }
    requires handles { table.now.sizes.handles ≡ 64 }
{
    join(
        rt,
        || -> Pushes
            requires { IsReady table.now first × IsReady table.now second × (table.now.sizes.handles ≡ 64) }
        { both_schedule(rt, table, first, second) },
        || -> u64
            requires { ServesHome table.now.sizes lots.pool lots.home × IsBetweenPolls table.now home.seat }
        { poll_all(rt, table, lots, home) },
    )
}

/// Tells how many calls were too few or too many, and answers what the schedules came to.
pub fn two_threads<R: Threads + Wait + Print + Sync>(rt: &R, alloc: Global) -> io::Result<Pushes> {
    let Ok(lots) = LotPool::build(rt, alloc, HANDLES, 0) else {
        return Err(io::Error::from(io::ErrorKind::OutOfMemory));
    };
    let Ok(built) = LoopTable::<u64>::build(alloc, HANDLES, 0, 0) else {
        return Err(io::Error::from(io::ErrorKind::OutOfMemory));
    };
    let Built {
        table,
        home,
        mut seat,
    } = built;
    let Some(other) = table.split(&mut seat) else {
        return Err(io::Error::from(io::ErrorKind::Other));
    };
    let (pushes, called) = pushed_and_called(rt, &table, lots, home, seat, other);
    let off = pushes.announced.abs_diff(called);
    println!(rt; "two threads: {SCHEDULES} schedules each, {off} calls too few or too many")?;
    Ok(pushes)
}

/// The same, and how the threads met: this differs from run to run.
pub fn two_threads_and_misses<R: Threads + Wait + Print + Sync>(
    rt: &R,
    alloc: Global,
) -> io::Result<()> {
    let pushes = two_threads(rt, alloc)?;
    println!(rt;
        "two threads: {} pushes, {} tries missed",
        pushes.announced, pushes.missed
    )
}
