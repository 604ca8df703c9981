//! Two threads place one-shots over a few places while home polls.
ghost use Rattle.std.specs.Prelude.{◌≡◌, ◌≤◌};
ghost use Rattle.std.specs.Thread.{IsSync};
ghost use Rattle.lot_pool.specs.Pools.{IsPassOf, IsHomeOf};
ghost use Rattle.aio_bh.specs.OneShots.{IsPoolFor};
ghost use Rattle.aio_core.specs.Calls.{IsReady};
ghost use Rattle.aio_bh.specs.Ready.{IsBetweenPolls};

use aio_bh::{BottomHalves, Call, LotBuilt, LotPass, LotPool, Runner, Turn};
use aio_core::{Built, Home, LoopTable, Seat};
use std::process::Abort;
use std::sync::Wait;
use std::test::Fail;
use std::thread::{Threads, join, yield_now};

const PLACES: u32 = 16;

/// How many one-shots each thread places. The jobs of the second follow those of the first.
const EACH: u64 = 1_000;

/// How often each job was called.
#[derive(Drop)]
struct Calls {
    times: Vec<u64>,
    all: u64,
}

impl Calls {
    fn note(&mut self, job: u64) {
        let place = job as usize;
        if place < self.times.len() {
            self.times[place] = self.times[place].wrapping_add(1);
        }
        self.all = self.all.wrapping_add(1);
    }

    /// Each of the jobs was called, and none twice.
    fn each_once(&self) -> bool {
        self.all == 2 * EACH && self.times.iter().all(|times| *times == 1)
    }
}

impl Runner<u64> for Calls {
    ghost use Rattle.std.specs.Prelude.{true};

    ghost can_run = { λ _ _. true ≡ true };

    ghost does = { λ _ _ _. true ≡ true };

    fn run(
        &mut self,
        _table: &LoopTable<u64>,
        _seat: &mut Seat<u64>,
        call: &mut Call<u64>,
    ) -> Turn {
        if let Some(job) = call.job {
            self.note(job);
        }
        Turn::Done
    }
}

/// Places a one-shot, trying again where there is no room.
fn place<R: Wait>(
    rt: &R,
    table: &LoopTable<u64>,
    pool: &LotPool,
    pass: &mut LotPass,
    seat: &mut Seat<u64>,
    job: u64,
)
    requires pool { IsPoolFor table.now.sizes pool.now }
    requires pass { IsPassOf pool.now pass.old }
    requires seat { IsReady table.now seat.old }
    ensures pass { IsPassOf pool.now pass.new }
    ensures seat { IsReady table.now seat.new }
{
    let mut job = job;
    for _ in rt.forever() {
        match table.once(rt, pool, pass, seat, job) {
            Ok(()) => return,
            Err(refused) => {
                job = refused.job;
                yield_now();
            }
        }
    }
    unreachable!()
}

/// Places one job after another.
fn place_all<R: Wait>(
    rt: &R,
    table: &LoopTable<u64>,
    pool: &LotPool,
    pass: LotPass,
    seat: Seat<u64>,
    first: u64,
)
    requires pool { IsPoolFor table.now.sizes pool.now }
    requires pass { IsPassOf pool.now pass }
    requires seat { IsReady table.now seat }
    requires first { first ≤ 1000 }
{
    let mut pass = pass;
    let mut seat = seat;
    for job in first..first + EACH {
        place(rt, table, pool, &mut pass, &mut seat, job);
    }
}

/// What a thread places with.
type Placer = (LotPass, Seat<u64>);

/// Two threads at once.
fn both_place<R: Threads + Wait + Sync>(
    rt: &R,
    table: &LoopTable<u64>,
    pool: &LotPool,
    low: Placer,
    high: Placer,
)
    requires pool { IsPoolFor table.now.sizes pool.now }
    requires low { IsPassOf pool.now low.0 × IsReady table.now low.1 }
    requires high { IsPassOf pool.now high.0 × IsReady table.now high.1 }
{
    let (low_pass, low_seat) = low;
    let (high_pass, high_seat) = high;
    join(
        rt,
        || -> ()
            requires { IsPoolFor table.now.sizes pool.now × IsPassOf pool.now low_pass × IsReady table.now low_seat }
        { place_all(rt, table, pool, low_pass, low_seat, 0) },
        || -> ()
            requires { IsPoolFor table.now.sizes pool.now × IsPassOf pool.now high_pass × IsReady table.now high_seat }
        { place_all(rt, table, pool, high_pass, high_seat, EACH) },
    );
}

/// Polls until each job was called.
fn poll_all<R: Wait>(
    rt: &R,
    table: &LoopTable<u64>,
    pool: &LotPool,
    pass: LotPass,
    home: Home<u64>,
    calls: Calls,
) -> (LotPass, Calls)
    requires pool { IsPoolFor table.now.sizes pool.now }
    requires pass { IsHomeOf pool.now pass }
    requires seat { IsBetweenPolls table.now home.seat }
{
    let mut pass = pass;
    let mut home = home;
    let mut calls = calls;
    for _ in 0..u64::MAX {
        if calls.all >= 2 * EACH {
            break;
        }
        table.poll(rt, pool, &mut pass, &mut home, &mut calls);
    }
    (pass, calls)
}

/// Both threads place while home polls.
fn placed_and_called<R: Threads + Wait + Sync>(
    rt: &R,
    table: &LoopTable<u64>,
    pool: &LotPool,
    lots: LotPass,
    home: Home<u64>,
    calls: Calls,
    low: Placer,
    high: Placer,
) -> (LotPass, Calls)
    requires pool { IsPoolFor table.now.sizes pool.now }
    requires lots { IsHomeOf pool.now lots }
    requires home { IsBetweenPolls table.now home.seat }
    requires low { IsPassOf pool.now low.0 × IsReady table.now low.1 }
    requires high { IsPassOf pool.now high.0 × IsReady table.now high.1 }
{
    let ((), polled) = join(
        rt,
        || -> ()
            requires { IsPoolFor table.now.sizes pool.now × IsPassOf pool.now low.0 × IsReady table.now low.1 × IsPassOf pool.now high.0 × IsReady table.now high.1 }
        { both_place(rt, table, pool, low, high) },
        || -> (LotPass, Calls)
            requires { IsPoolFor table.now.sizes pool.now × IsHomeOf pool.now lots × IsBetweenPolls table.now home.seat }
        { poll_all(rt, table, pool, lots, home, calls) },
    );
    polled
}

#[test]
fn each_job_of_two_threads_is_called_once(rt: HostRuntime) -> Result<(), Fail> {
    let Ok(times) = vec![in rt.alloc(); 0; 2000] else {
        return Err(Fail::from("no memory"));
    };
    let Ok(
        LotBuilt {
            pool,
            home: lots,
            mut pass,
        },
    ) = LotPool::build(&rt, rt.alloc(), 1, PLACES)
    else {
        return Err(Fail::from("no memory"));
    };
    let Ok(
        Built {
            table,
            home,
            mut seat,
        },
    ) = LoopTable::<u64>::build(rt.alloc(), 1, PLACES, 0)
    else {
        return Err(Fail::from("no memory"));
    };
    let (Some(other_pass), Some(other_seat)) = (pool.split(&mut pass), table.split(&mut seat))
    else {
        return Err(Fail::from("64 numbers are not split"));
    };
    let calls = Calls { times, all: 0 };
    let (lots, calls) = placed_and_called(
        &rt,
        &table,
        &pool,
        lots,
        home,
        calls,
        (pass, seat),
        (other_pass, other_seat),
    );
    assert!(rt; calls.each_once());
    assert_eq!(rt; lots.kept(), 0);
    Ok(())
}
