//! A home on a thread of its own sleeps, and another thread wakes it.
ghost use Rattle.std.specs.Prelude.{◌≡◌, ◌<◌, true};
ghost use Rattle.std.specs.Thread.{IsSync};
ghost use Rattle.aio_core.specs.Known.{is_running};
ghost use Rattle.aio_bh.specs.OneShots.{ServesHome};
ghost use Rattle.aio_core.specs.Calls.{IsReady};
ghost use Rattle.aio_bh.specs.Ready.{IsBetweenPolls};

use aio_bh::{BottomHalves, Call, LotBuilt, LotPool, Runner, Turn};
use aio_core::{Built, Home, LoopTable, Seat};
use aio_model::Commit;
use aio_notify::{LoopEvents, Sleeping};
use aio_words::StepClock;
use std::alloc::Global;
use std::process::Abort;
use std::sync::Wait;
use std::sync::atomic::{AtomicU64, Ordering};
use std::test::Fail;
use std::thread::{Threads, join, yield_now};

const ROUNDS: u64 = 1_000;

/// The runner counts its calls.
#[derive(Drop)]
struct Calls {
    count: u64,
}

impl Runner<u64> for Calls {
    ghost use Rattle.std.specs.Prelude.{true};

    ghost can_run = { λ _ _. true ≡ true };

    ghost does = { λ _ _ _. true ≡ true };

    fn run(
        &mut self,
        _table: &LoopTable<u64>,
        _seat: &mut Seat<u64>,
        _call: &mut Call<u64>,
    ) -> Turn {
        self.count = self.count.wrapping_add(1);
        Turn::Done
    }
}

/// How home is woken.
#[derive(Clone, Copy)]
enum Wake {
    Schedule,
    Event,
}

/// How often home was called back, and how often it found the event set.
#[derive(Clone, Copy, Debug, PartialEq, Eq)]
struct Answered {
    called: u64,
    cleared: u64,
}

/// Home commits with nothing to do, says so, and waits without a bound. It is awake then.
fn sleep_once<R: Wait + Abort>(
    rt: &R,
    table: &LoopTable<u64>,
    home: &mut Home<u64>,
    asleep: &AtomicU64,
    round: u64,
)
    requires home { IsBetweenPolls table.now home.old.seat }
    requires running { is_running home.old.seat.known.sleep ≡ true }
    ensures home { IsBetweenPolls table.now home.new.seat }
    ensures running { is_running home.new.seat.known.sleep ≡ true }
{
    let mut clock = StepClock { now: 0 };
    match table.commit(home, 1, None, 0) {
        Commit::Sleep(bound) => {
            assert_eq!(rt; bound, None);
            asleep.store(round, Ordering::SeqCst);
            table.wait(rt, home, None, &mut clock);
            table.disarm(home);
            table.accept(home);
        }
        Commit::Awake(why) => panic!(rt; "awake for {why:?}"),
    }
}

/// Home sleeps in each round, and answers what woke it.
fn sleep_and_answer<R: Wait + Abort>(
    rt: &R,
    table: &LoopTable<u64>,
    lots: LotBuilt,
    home: Home<u64>,
    asleep: &AtomicU64,
) -> Answered
    requires lots { ServesHome table.now.sizes lots.pool lots.home }
    requires home { IsBetweenPolls table.now home.seat }
    requires running { is_running home.seat.known.sleep ≡ true }
    requires event { 0 < table.now.sizes.events }
{
    let mut lots = lots;
    let mut home = home;
    let mut calls = Calls { count: 0 };
    let mut cleared = 0u64;
    for round in 1..ROUNDS + 1 {
        sleep_once(rt, table, &mut home, asleep, round);
        table.poll(rt, &lots.pool, &mut lots.home, &mut home, &mut calls);
        cleared = cleared.wrapping_add(u64::from(table.clear_event(&mut home, 0)));
    }
    Answered {
        called: calls.count,
        cleared,
    }
}

/// Waits until home has said that it is about to wait in this round.
fn until_asleep<R: Wait>(rt: &R, asleep: &AtomicU64, round: u64) {
    for _ in rt.forever() {
        if asleep.load(Ordering::SeqCst) >= round {
            return;
        }
        yield_now();
    }
    unreachable!()
}

/// Wakes home once in each round, from another thread.
fn wake_all<R: Wait>(rt: &R, table: &LoopTable<u64>, seat: Seat<u64>, asleep: &AtomicU64, how: Wake)
    requires seat { IsReady table.now seat }
    requires handle { 0 < table.now.sizes.handles }
    requires event { 0 < table.now.sizes.events }
{
    let mut seat = seat;
    for round in 1..ROUNDS + 1 {
        until_asleep(rt, asleep, round);
        wake_by(rt, table, &mut seat, how);
    }
}

fn wake_by<R: Wait>(rt: &R, table: &LoopTable<u64>, seat: &mut Seat<u64>, how: Wake)
    requires seat { IsReady table.now seat.old }
    requires handle { 0 < table.now.sizes.handles }
    requires event { 0 < table.now.sizes.events }
    ensures seat { IsReady table.now seat.new }
{
    match how {
        Wake::Schedule => {
            table.schedule(rt, seat, 0);
        }
        Wake::Event => table.set_event(seat, 0),
    }
}

/// Home on a thread of its own, and who wakes it on another.
fn on_two_threads<R: Threads + Wait + Abort + Sync>(
    rt: &R,
    table: &LoopTable<u64>,
    lots: LotBuilt,
    home: Home<u64>,
    seat: Seat<u64>,
    how: Wake,
) -> Answered
    requires lots { ServesHome table.now.sizes lots.pool lots.home }
    requires home { IsBetweenPolls table.now home.seat }
    requires running { is_running home.seat.known.sleep ≡ true }
    requires seat { IsReady table.now seat }
    requires handle { 0 < table.now.sizes.handles }
    requires event { 0 < table.now.sizes.events }
{
    let asleep = AtomicU64::new(0);
    let (all, ()) = join(
        rt,
        || -> Answered
            requires { ServesHome table.now.sizes lots.pool lots.home × IsBetweenPolls table.now home.seat × (is_running home.seat.known.sleep ≡ true) × (0 < table.now.sizes.events) }
        { sleep_and_answer(rt, table, lots, home, &asleep) },
        || -> ()
            requires { IsReady table.now seat × (0 < table.now.sizes.handles) × (0 < table.now.sizes.events) }
        { wake_all(rt, table, seat, &asleep, how) },
    );
    all
}

/// What a parked home answered in all rounds.
fn after_all_rounds<R: Threads + Wait + Abort + Sync>(
    rt: &R,
    alloc: Global,
    how: Wake,
) -> Result<Answered, Fail> {
    let Ok(lots) = LotPool::build(rt, alloc, 1, 0) else {
        return Err(Fail::from("no memory"));
    };
    let Ok(Built { table, home, seat }) = LoopTable::<u64>::build(alloc, 1, 0, 1) else {
        return Err(Fail::from("no memory"));
    };
    Ok(on_two_threads(rt, &table, lots, home, seat, how))
}

#[test]
fn each_schedule_wakes_a_parked_home(rt: HostRuntime) -> Result<(), Fail> {
    let all = Answered {
        called: ROUNDS,
        cleared: 0,
    };
    assert_eq!(rt; after_all_rounds(&rt, rt.alloc(), Wake::Schedule)?, all);
    Ok(())
}

#[test]
fn each_event_wakes_a_parked_home(rt: HostRuntime) -> Result<(), Fail> {
    let all = Answered {
        called: 0,
        cleared: ROUNDS,
    };
    assert_eq!(rt; after_all_rounds(&rt, rt.alloc(), Wake::Event)?, all);
    Ok(())
}
