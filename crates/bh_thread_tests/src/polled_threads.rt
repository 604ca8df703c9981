//! The home polls while two threads schedule, until each has said by a handle of its own that it is done.
ghost use Rattle.std.specs.Prelude.{◌≡◌, ◌<◌, ◌≤◌};
ghost use Rattle.std.specs.Thread.{IsSync};
ghost use Rattle.aio_bh.specs.OneShots.{ServesHome};
ghost use Rattle.aio_core.specs.Calls.{IsReady};
ghost use Rattle.aio_bh.specs.Ready.{IsBetweenPolls};

use aio_bh::{BottomHalves, Call, LotBuilt, LotPool, Runner, Turn};
use aio_core::{Built, Home, LoopTable, Seat};
use std::alloc::Global;
use std::process::Abort;
use std::sync::Wait;
use std::test::Fail;
use std::thread::{Threads, join, yield_now};

const HANDLES: u32 = 64;

/// The handles that the two threads schedule over and over stand before those by which they say that they are done.
const SHARED: u32 = 62;

const SCHEDULES: u32 = 10_000;

/// How often something was noted of each handle.
#[derive(Drop)]
struct Tally {
    times: [u64; 64],
}

impl Tally {
    fn note(&mut self, bh: u32) {
        if let Some(place) = self.times.get_mut(bh as usize) {
            *place = place.wrapping_add(1);
        }
    }

    /// Whether both threads have said that they are done.
    fn have_ended(&self) -> bool {
        self.times[62] > 0 && self.times[63] > 0
    }
}

impl Runner<u64> for Tally {
    ghost use Rattle.std.specs.Prelude.{true};

    ghost can_run = { λ _ _. true ≡ true };

    ghost does = { λ _ _ _. true ≡ true };

    fn run(
        &mut self,
        _table: &LoopTable<u64>,
        _seat: &mut Seat<u64>,
        call: &mut Call<u64>,
    ) -> Turn {
        self.note(call.bh);
        Turn::Done
    }
}

/// Schedules a handle, and notes it where it was not pending. Where it was, home gets time to call it.
fn schedule_one<R: Wait>(
    rt: &R,
    table: &LoopTable<u64>,
    seat: &mut Seat<u64>,
    bh: u32,
    announced: &mut Tally,
)
    requires ready { IsReady table.now seat.old }
    requires handle { bh < table.now.sizes.handles }
    ensures ready { IsReady table.now seat.new }
{
    if table.schedule(rt, seat, bh).pending {
        yield_now();
    } else {
        announced.note(bh);
    }
}

/// Schedules one handle after another of so many, and then the one by which it says that it is done. Tells how often each was
/// not pending.
fn schedule_all<R: Wait>(
    rt: &R,
    table: &LoopTable<u64>,
    seat: Seat<u64>,
    shared: u32,
    done: u32,
) -> Tally
    requires ready { IsReady table.now seat }
    requires handles { table.now.sizes.handles ≡ 64 }
    requires shared { (0 < shared) × (shared ≤ 62) }
    requires done { done < 64 }
{
    let mut seat = seat;
    let mut announced = Tally { times: [0; 64] };
    for turn in 0..SCHEDULES {
        schedule_one(
            rt,
            table,
            &mut seat,
            (turn * 7 + done) % shared,
            &mut announced,
        );
    }
    schedule_one(rt, table, &mut seat, done, &mut announced);
    announced
}

/// Two seats at once.
fn both_schedule<R: Threads + Wait + Sync>(
    rt: &R,
    table: &LoopTable<u64>,
    first: Seat<u64>,
    second: Seat<u64>,
    shared: u32,
) -> (Tally, Tally)
    requires shared { (0 < shared) × (shared ≤ 62) }
    requires first { IsReady table.now first }
    requires second { IsReady table.now second }
    requires handles { table.now.sizes.handles ≡ 64 }
{
    join(
        rt,
        || -> Tally
            requires { IsReady table.now first × (table.now.sizes.handles ≡ 64) × (0 < shared) × (shared ≤ 62) }
        { schedule_all(rt, table, first, shared, 62) },
        || -> Tally
            requires { IsReady table.now second × (table.now.sizes.handles ≡ 64) × (0 < shared) × (shared ≤ 62) }
        { schedule_all(rt, table, second, shared, 63) },
    )
}

/// Polls until both threads are done.
fn poll_all<R: Wait>(rt: &R, table: &LoopTable<u64>, lots: LotBuilt, home: Home<u64>) -> Tally
    requires lots { ServesHome table.now.sizes lots.pool lots.home }
    requires seat { IsBetweenPolls table.now home.seat }
{
    let mut lots = lots;
    let mut home = home;
    let mut called = Tally { times: [0; 64] };
    for _ in 0..u64::MAX {
        if called.have_ended() {
            break;
        }
        table.poll(rt, &lots.pool, &mut lots.home, &mut home, &mut called);
    }
    called
}

/// How often each handle was announced by each of two threads, and how often it was called.
fn announced_and_called<R: Threads + Wait + Sync>(
    rt: &R,
    table: &LoopTable<u64>,
    lots: LotBuilt,
    home: Home<u64>,
    first: Seat<u64>,
    second: Seat<u64>,
    shared: u32,
) -> ((Tally, Tally), Tally)
    requires shared { (0 < shared) × (shared ≤ 62) }
    requires lots { ServesHome table.now.sizes lots.pool lots.home }
    requires home { IsBetweenPolls table.now home.seat }
    requires first { IsReady table.now first }
    requires second { IsReady table.now second }
    requires handles { table.now.sizes.handles ≡ 64 }
{
    join(
        rt,
        || -> (Tally, Tally)
            requires { IsReady table.now first × IsReady table.now second × (table.now.sizes.handles ≡ 64) × (0 < shared) × (shared ≤ 62) }
        { both_schedule(rt, table, first, second, shared) },
        || -> Tally
            requires { ServesHome table.now.sizes lots.pool lots.home × IsBetweenPolls table.now home.seat }
        { poll_all(rt, table, lots, home) },
    )
}

/// Each call that the two threads announced was made once. Answers how many there were.
fn all_called(rt: &impl Abort, first: &Tally, second: &Tally, called: &Tally) -> u64 {
    let mut all = 0u64;
    for bh in 0..64usize {
        let announced = first.times[bh].wrapping_add(second.times[bh]);
        assert_eq!(rt; called.times[bh], announced, "of {bh}");
        all = all.wrapping_add(announced);
    }
    all
}

/// Two threads schedule so many handles over and over while home polls. Answers how often one was found not pending, which is how
/// often it was called.
fn stormed<R: Abort + Threads + Wait + Sync>(
    rt: &R,
    alloc: Global,
    shared: u32,
) -> Result<u64, Fail>
    requires { (0 < shared) × (shared ≤ 62) }
{
    let Ok(lots) = LotPool::build(rt, alloc, HANDLES, 0) else {
        return Err(Fail::from("no memory"));
    };
    let Ok(built) = LoopTable::<u64>::build(alloc, HANDLES, 0, 0) else {
        return Err(Fail::from("no memory"));
    };
    let Built {
        table,
        home,
        mut seat,
    } = built;
    let Some(other) = table.split(&mut seat) else {
        return Err(Fail::from("64 numbers are not split"));
    };
    let ((first, second), called) = announced_and_called(
        rt, &table, lots, home, seat, other, shared,
    );
    Ok(all_called(rt, &first, &second, &called))
}

#[test]
fn each_announced_call_is_made_once(rt: HostRuntime) -> Result<(), Fail> {
    let announced = stormed(&rt, rt.alloc(), SHARED)?;
    println!(rt; "{announced} of 20002 schedules found their handle not pending")?;
    assert!(rt;
        announced > 2_000,
        "only {announced} of 20002 schedules found their handle not pending"
    );
    Ok(())
}

#[test]
fn storm(rt: HostRuntime) -> Result<(), Fail> {
    let announced = stormed(&rt, rt.alloc(), 1)?;
    assert!(rt; announced > 2, "one handle was called once at least");
    Ok(())
}
