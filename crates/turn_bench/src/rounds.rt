//! Rounds of turns.
ghost use Rattle.std.specs.Prelude.{◌≡◌, ◌<◌, false};

use crate::calls::Calls;
use crate::measured::Measured;
use aio_bh::{LotBuilt, LotPool};
use aio_core::{Built, LoopTable};
use aio_loop::{AioLoop, Handlers, Side, TimerId, Timers};
use aio_words::StepClock;
use std::alloc::Global;
use std::io;
use std::sync::Wait;

/// How many turns there are in which nothing is to be done.
const IDLE_ROUNDS: u64 = 4_000_000;

/// How many turns there are with a bottom half, an event and a timer each.
const BUSY_ROUNDS: u64 = 1_000_000;

/// A loop's side with a handler and a timer.
struct Armed {
    side: Side,
    timer: TimerId,
    ghost timer_of: { timer.number < side.timers.made },
    ghost walking: { side.handlers.walking ≡ false },
}

/// The timer is armed for this time.
fn arm(alloc: Global, expire: i64) -> io::Result<Armed> {
    let (Ok(mut handlers), Ok(mut timers)) = (Handlers::build(alloc, 1), Timers::build(alloc, 1))
    else {
        return Err(io::Error::from(io::ErrorKind::OutOfMemory));
    };
    let (Ok(_), Some(timer)) = (handlers.add(0, 0), timers.add()) else {
        return Err(io::Error::from(io::ErrorKind::Other));
    };
    timers.arm(timer, expire);
    Ok(Armed {
        side: Side { handlers, timers },
        timer,
    })
}

fn turn_idle<R: Wait>(rt: &R, measured: &mut Measured<'_>) {
    for _ in 0..IDLE_ROUNDS {
        measured.turn(rt);
    }
}

fn turn_busy<R: Wait>(rt: &R, measured: &mut Measured<'_>) {
    for _ in 0..BUSY_ROUNDS {
        measured.schedule(rt);
        measured.set_event();
        measured.turn(rt);
    }
}

/// Turns with an event that isn't set and a timer that doesn't expire.
pub fn idle_turns<R: Wait + Print>(rt: &R, alloc: Global) -> io::Result<()> {
    let (Ok(lots), Ok(built)) = (
        LotPool::build(rt, alloc, 1, 0),
        LoopTable::<u64>::build(alloc, 1, 0, 1),
    ) else {
        return Err(io::Error::from(io::ErrorKind::OutOfMemory));
    };
    let LotBuilt {
        pool,
        home: lot_pass,
        pass: _,
    } = lots;
    let Built { table, home, seat } = built;
    let Armed { side, timer } = arm(alloc, i64::MAX)?;
    let mut measured = Measured {
        home_loop: AioLoop {
            table: &table,
            pool: &pool,
            lot_pass,
            home,
            side,
        },
        seat,
        calls: Calls {
            timer,
            bottoms: 0,
            handlers: 0,
            timers: 0,
        },
        clock: StepClock { now: 5 },
    };
    turn_idle(rt, &mut measured);
    let calls = measured.calls;
    println!(rt;
        "idle turns: {IDLE_ROUNDS} rounds, {} bottom halves, {} handlers, {} timers",
        calls.bottoms, calls.handlers, calls.timers
    )
}

/// Turns each with a bottom half, an event and a timer.
pub fn busy_turns<R: Wait + Print>(rt: &R, alloc: Global) -> io::Result<()> {
    let (Ok(lots), Ok(built)) = (
        LotPool::build(rt, alloc, 1, 0),
        LoopTable::<u64>::build(alloc, 1, 0, 1),
    ) else {
        return Err(io::Error::from(io::ErrorKind::OutOfMemory));
    };
    let LotBuilt {
        pool,
        home: lot_pass,
        pass: _,
    } = lots;
    let Built { table, home, seat } = built;
    let Armed { side, timer } = arm(alloc, 0)?;
    let mut measured = Measured {
        home_loop: AioLoop {
            table: &table,
            pool: &pool,
            lot_pass,
            home,
            side,
        },
        seat,
        calls: Calls {
            timer,
            bottoms: 0,
            handlers: 0,
            timers: 0,
        },
        clock: StepClock { now: 5 },
    };
    turn_busy(rt, &mut measured);
    let calls = measured.calls;
    println!(rt;
        "busy turns: {BUSY_ROUNDS} rounds, {} bottom halves, {} handlers, {} timers",
        calls.bottoms, calls.handlers, calls.timers
    )
}
