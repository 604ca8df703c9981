//! Two homes on threads of their own that wake each other in turn, beside two threads that do so by a condition variable. And four
//! threads that notify a parked home, each at its own moments.
ghost use Rattle.std.specs.Prelude.{◌≡◌};
ghost use Rattle.std.specs.Thread.{IsSync};
ghost use Rattle.loop_bench.specs.Awake.{IsAwake};
ghost use Rattle.aio_core.specs.Calls.{IsReady};

use aio_core::{Built, Home, LoopTable, Seat};
use aio_model::Commit;
use aio_notify::{Notify, Sleeping};
use aio_words::StepClock;
use std::alloc::Global;
use std::io;
use std::sync::atomic::{AtomicU64, Ordering};
use std::sync::{Condvar, Mutex, Wait};
use std::thread::{Threads, join, yield_now};

/// How often each of two threads wakes the other.
const TURNS: u64 = 10_000;

/// How often each of four threads notifies the parked home.
const RINGS: u64 = 25_000;

/// Commits, and waits where home may sleep. It is awake then, and has accepted.
fn sleep_once<R: Wait>(rt: &R, table: &LoopTable<u64>, home: &mut Home<u64>) -> bool
    requires awake { IsAwake table.now home.old.seat }
    ensures awake { IsAwake table.now home.new.seat }
{
    let mut clock = StepClock { now: 0 };
    let asleep = match table.commit(home, 0, None, 0) {
        Commit::Sleep(_) => {
            table.wait(rt, home, None, &mut clock);
            table.disarm(home);
            true
        }
        Commit::Awake(_) => false,
    };
    table.accept(home);
    asleep
}

/// Sleeps until it is this one's turn.
fn until_turn<R: Wait>(
    rt: &R,
    table: &LoopTable<u64>,
    home: &mut Home<u64>,
    turn: &AtomicU64,
    mine: u64,
)
    requires awake { IsAwake table.now home.old.seat }
    ensures awake { IsAwake table.now home.new.seat }
{
    for _ in rt.forever() {
        if turn.load(Ordering::SeqCst) == mine {
            return;
        }
        sleep_once(rt, table, home);
    }
    unreachable!()
}

/// Takes its turns, and gives each on to the other loop.
fn take_turns<R: Wait>(
    rt: &R,
    table: &LoopTable<u64>,
    home: Home<u64>,
    other: &LoopTable<u64>,
    seat: Seat<u64>,
    turn: &AtomicU64,
    mine: u64,
)
    requires awake { IsAwake table.now home.seat }
    requires seat { IsReady other.now seat }
{
    let mut home = home;
    let mut seat = seat;
    for _ in 0..TURNS {
        until_turn(rt, table, &mut home, turn, mine);
        turn.store(1 ^ mine, Ordering::SeqCst);
        other.notify(&mut seat);
    }
}

fn two_homes<R: Threads + Wait + Sync>(
    rt: &R,
    one: &LoopTable<u64>,
    home_of_one: Home<u64>,
    seat_of_one: Seat<u64>,
    other: &LoopTable<u64>,
    home_of_other: Home<u64>,
    seat_of_other: Seat<u64>,
)
    requires one { IsAwake one.now home_of_one.seat × IsReady one.now seat_of_one }
    requires other { IsAwake other.now home_of_other.seat × IsReady other.now seat_of_other }
{
    let turn = AtomicU64::new(0);
    join(
        rt,
        || -> ()
            requires { IsAwake one.now home_of_one.seat × IsReady other.now seat_of_other }
        { take_turns(rt, one, home_of_one, other, seat_of_other, &turn, 0) },
        || -> ()
            requires { IsAwake other.now home_of_other.seat × IsReady one.now seat_of_one }
        { take_turns(rt, other, home_of_other, one, seat_of_one, &turn, 1) },
    );
}

/// Two homes wake each other in turn.
pub fn wake_each_other<R: Threads + Wait + Print + Sync>(rt: &R, alloc: Global) -> io::Result<()> {
    let (Ok(one), Ok(other)) = (
        LoopTable::<u64>::build(alloc, 1, 0, 0),
        LoopTable::<u64>::build(alloc, 1, 0, 0),
    ) else {
        return Err(io::Error::from(io::ErrorKind::OutOfMemory));
    };
    let Built { table, home, seat } = one;
    let Built {
        table: other,
        home: home_of_other,
        seat: seat_of_other,
    } = other;
    two_homes(rt, &table, home, seat, &other, home_of_other, seat_of_other);
    println!(rt; "homes in turn: {TURNS} turns each")
}

/// Takes its turns under a lock, and waits for each by a condition variable.
fn take_locked_turns<R: Wait>(rt: &R, turn: &Mutex<u64>, changed: &Condvar, mine: u64) {
    for _ in 0..TURNS {
        let mut at = changed.wait_while(rt, turn.lock(rt), |at| *at != mine);
        *at = 1 ^ mine;
        changed.notify_one();
    }
}

/// Two threads wake each other in turn by a condition variable.
pub fn wake_by_condvar<R: Threads + Wait + Print + Sync>(rt: &R) -> io::Result<()> {
    let turn = Mutex::new(0u64);
    let changed = Condvar::new();
    join(
        rt,
        || -> () { take_locked_turns(rt, &turn, &changed, 0) },
        || -> () { take_locked_turns(rt, &turn, &changed, 1) },
    );
    println!(rt; "a condition variable in turn: {TURNS} turns each")
}

/// Lets other threads run so many times.
fn step_aside(times: u64) {
    for _ in 0..times {
        yield_now();
    }
}

/// Notifies over and over, with pauses of its own between.
fn ring_all(table: &LoopTable<u64>, seat: Seat<u64>, salt: u64, rung: &AtomicU64)
    requires seat { IsReady table.now seat }
{
    let mut seat = seat;
    let mut state = salt;
    for _ in 0..RINGS {
        rung.fetch_add(1, Ordering::SeqCst);
        table.notify(&mut seat);
        state = state
            .wrapping_mul(6364136223846793005)
            .wrapping_add(1442695040888963407);
        step_aside(state >> 60);
    }
}

/// Home sleeps until all rings were made, and tells how often it slept.
fn sleep_until_rung<R: Wait>(
    rt: &R,
    table: &LoopTable<u64>,
    home: Home<u64>,
    rung: &AtomicU64,
) -> u64
    requires awake { IsAwake table.now home.seat }
{
    let mut home = home;
    let mut sleeps = 0u64;
    for _ in rt.forever() {
        if rung.load(Ordering::SeqCst) == 4 * RINGS {
            return sleeps;
        }
        if sleep_once(rt, table, &mut home) {
            sleeps = sleeps.wrapping_add(1);
        }
    }
    unreachable!()
}

/// Two threads that notify.
fn ring_from_two<R: Threads + Sync>(
    rt: &R,
    table: &LoopTable<u64>,
    first: Seat<u64>,
    second: Seat<u64>,
    salt: u64,
    rung: &AtomicU64,
)
    requires first { IsReady table.now first }
    requires second { IsReady table.now second }
{
    join(
        rt,
        || -> ()
            requires { IsReady table.now first }
        { ring_all(table, first, salt, rung) },
        || -> ()
            requires { IsReady table.now second }
        { ring_all(table, second, !salt, rung) },
    );
}

/// The seats of four threads.
#[derive(Drop)]
struct Four {
    seats: (Seat<u64>, Seat<u64>),
    others: (Seat<u64>, Seat<u64>),
}

fn ring_from_four<R: Threads + Sync>(rt: &R, table: &LoopTable<u64>, four: Four, rung: &AtomicU64)
    requires seats { IsReady table.now four.seats.0 × IsReady table.now four.seats.1 }
    requires others { IsReady table.now four.others.0 × IsReady table.now four.others.1 }
{
    let Four { seats, others } = four;
    join(
        rt,
        || -> ()
            requires { IsReady table.now seats.0 × IsReady table.now seats.1 }
        { ring_from_two(rt, table, seats.0, seats.1, 3, rung) },
        || -> ()
            requires { IsReady table.now others.0 × IsReady table.now others.1 }
        { ring_from_two(rt, table, others.0, others.1, 17, rung) },
    );
}

/// How often home slept.
fn sleeps_while_rung<R: Threads + Wait + Sync>(
    rt: &R,
    table: &LoopTable<u64>,
    home: Home<u64>,
    four: Four,
) -> u64
    requires awake { IsAwake table.now home.seat }
    requires seats { IsReady table.now four.seats.0 × IsReady table.now four.seats.1 }
    requires others { IsReady table.now four.others.0 × IsReady table.now four.others.1 }
{
    let rung = AtomicU64::new(0);
    let (sleeps, ()) = join(
        rt,
        || -> u64
            requires { IsAwake table.now home.seat }
        { sleep_until_rung(rt, table, home, &rung) },
        || -> ()
            requires { IsReady table.now four.seats.0 × IsReady table.now four.seats.1 × IsReady table.now four.others.0 × IsReady table.now four.others.1 }
        { ring_from_four(rt, table, four, &rung) },
    );
    sleeps
}

/// Four threads notify a home that sleeps each time that it may.
pub fn ring_at_random<R: Threads + Wait + Print + Sync>(rt: &R, alloc: Global) -> io::Result<()> {
    let Ok(
        Built {
            table,
            home,
            seat: mut first,
        },
    ) = LoopTable::<u64>::build(alloc, 1, 0, 0)
    else {
        return Err(io::Error::from(io::ErrorKind::OutOfMemory));
    };
    let Some(mut third) = table.split(&mut first) else {
        return println!(rt; "the seat is not split");
    };
    let (Some(second), Some(fourth)) = (table.split(&mut first), table.split(&mut third)) else {
        return println!(rt; "the seat is not split");
    };
    let four = Four {
        seats: (first, second),
        others: (third, fourth),
    };
    let sleeps = sleeps_while_rung(rt, &table, home, four);
    println!(rt; "four threads: {RINGS} rings each; home slept {sleeps} times")
}
