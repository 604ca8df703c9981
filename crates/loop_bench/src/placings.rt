//! Two threads place one-shots over a few places while home polls, until each was called.
ghost use Rattle.std.specs.Prelude.{◌≡◌};
ghost use Rattle.std.specs.Thread.{IsSync};
ghost use Rattle.lot_pool.specs.Pools.{IsPassOf, IsHomeOf};
ghost use Rattle.aio_bh.specs.OneShots.{IsPoolFor};
ghost use Rattle.aio_core.specs.Calls.{IsReady};
ghost use Rattle.aio_bh.specs.Ready.{IsBetweenPolls};

use crate::calls::{Calls, HANDLES, LOTS};
use aio_bh::{BottomHalves, LotBuilt, LotPass, LotPool};
use aio_core::{Built, Home, LoopTable, Seat};
use std::alloc::Global;
use std::io;
use std::sync::Wait;
use std::thread::{Threads, join, yield_now};

/// How many one-shots each of the two threads places.
const EACH: u64 = 500_000;

/// Places a one-shot, trying again where there is no room. Tells how often there was none.
fn place<R: Wait>(
    rt: &R,
    table: &LoopTable<u64>,
    pool: &LotPool,
    pass: &mut LotPass,
    seat: &mut Seat<u64>,
    job: u64,
) -> u64
    requires pool { IsPoolFor table.now.sizes pool.now }
    requires pass { IsPassOf pool.now pass.old }
    requires seat { IsReady table.now seat.old }
    ensures pass { IsPassOf pool.now pass.new }
    ensures seat { IsReady table.now seat.new }
{
    let mut refused = 0u64;
    for _ in rt.forever() {
        if table.once(rt, pool, pass, seat, job).is_ok() {
            return refused;
        }
        refused = refused.wrapping_add(1);
        yield_now();
    }
    unreachable!()
}

/// Places one job after another, and tells how often there was no room.
fn place_all<R: Wait>(
    rt: &R,
    table: &LoopTable<u64>,
    pool: &LotPool,
    pass: LotPass,
    seat: Seat<u64>,
) -> u64
    requires pool { IsPoolFor table.now.sizes pool.now }
    requires pass { IsPassOf pool.now pass }
    requires seat { IsReady table.now seat }
{
    let mut pass = pass;
    let mut seat = seat;
    let mut refused = 0u64;
    for job in 0..EACH {
        let tries = place(rt, table, pool, &mut pass, &mut seat, job);
        refused = refused.wrapping_add(tries);
    }
    refused
}

/// What a thread places with.
type Placer = (LotPass, Seat<u64>);

/// Two threads at once, and how often there was no room.
fn both_place<R: Threads + Wait + Sync>(
    rt: &R,
    table: &LoopTable<u64>,
    pool: &LotPool,
    low: Placer,
    high: Placer,
) -> u64
    requires pool { IsPoolFor table.now.sizes pool.now }
    requires low { IsPassOf pool.now low.0 × IsReady table.now low.1 }
    requires high { IsPassOf pool.now high.0 × IsReady table.now high.1 }
{
    let (low_pass, low_seat) = low;
    let (high_pass, high_seat) = high;
    let (first, second) = join(
        rt,
        || -> u64
            requires { IsPoolFor table.now.sizes pool.now × IsPassOf pool.now low_pass × IsReady table.now low_seat }
        { place_all(rt, table, pool, low_pass, low_seat) },
        || -> u64
            requires { IsPoolFor table.now.sizes pool.now × IsPassOf pool.now high_pass × IsReady table.now high_seat }
        { place_all(rt, table, pool, high_pass, high_seat) },
    );
    first.wrapping_add(second)
}

/// Polls until so many callbacks were called as the two threads place one-shots.
fn poll_all<R: Wait>(
    rt: &R,
    table: &LoopTable<u64>,
    pool: &LotPool,
    pass: LotPass,
    home: Home<u64>,
) -> u64
    requires pool { IsPoolFor table.now.sizes pool.now }
    requires pass { IsHomeOf pool.now pass }
    requires seat { IsBetweenPolls table.now home.seat }
{
    let mut pass = pass;
    let mut home = home;
    let mut calls = Calls { count: 0 };
    for _ in 0..u64::MAX {
        if calls.count >= 2 * EACH {
            break;
        }
        table.poll(rt, pool, &mut pass, &mut home, &mut calls);
    }
    calls.count
}

/// Both threads place while home polls: how often there was no room, and how many callbacks were called.
fn refused_and_called<R: Threads + Wait + Sync>(
    rt: &R,
    table: &LoopTable<u64>,
    pool: &LotPool,
    lots: LotPass,
    home: Home<u64>,
    low: Placer,
    high: Placer,
) -> (u64, u64)
    requires pool { IsPoolFor table.now.sizes pool.now }
    requires lots { IsHomeOf pool.now lots }
    requires home { IsBetweenPolls table.now home.seat }
    requires low { IsPassOf pool.now low.0 × IsReady table.now low.1 }
    requires high { IsPassOf pool.now high.0 × IsReady table.now high.1 }
{
    join(
        rt,
        || -> u64
            requires { IsPoolFor table.now.sizes pool.now × IsPassOf pool.now low.0 × IsReady table.now low.1 × IsPassOf pool.now high.0 × IsReady table.now high.1 }
        { both_place(rt, table, pool, low, high) },
        || -> u64
            requires { IsPoolFor table.now.sizes pool.now × IsHomeOf pool.now lots × IsBetweenPolls table.now home.seat }
        { poll_all(rt, table, pool, lots, home) },
    )
}

pub fn two_threads<R: Threads + Wait + Print + Sync>(rt: &R, alloc: Global) -> io::Result<()> {
    let Ok(
        LotBuilt {
            pool,
            home: lots,
            mut pass,
        },
    ) = LotPool::build(rt, alloc, HANDLES, LOTS)
    else {
        return Err(io::Error::from(io::ErrorKind::OutOfMemory));
    };
    let Ok(
        Built {
            table,
            home,
            mut seat,
        },
    ) = LoopTable::<u64>::build(alloc, HANDLES, LOTS, 0)
    else {
        return Err(io::Error::from(io::ErrorKind::OutOfMemory));
    };
    let (Some(other_pass), Some(other_seat)) = (pool.split(&mut pass), table.split(&mut seat))
    else {
        return Err(io::Error::from(io::ErrorKind::Other));
    };
    let (refused, calls) = refused_and_called(
        rt,
        &table,
        &pool,
        lots,
        home,
        (pass, seat),
        (other_pass, other_seat),
    );
    println!(rt; "two threads: {EACH} one-shots each, {refused} refused, {calls} calls")
}
