//! Threads that each take the lock over and over and count that, and wake each coroutine that is named.
ghost use Rattle.std.specs.Prelude.{◌≡◌, ◌<◌, ◌+◌, vec_len};
ghost use Rattle.aio_model.specs.Lock.History.{value_of};
ghost use Rattle.co_mutex.specs.Places.{AtRest, Holds};
ghost use Rattle.co_mutex.specs.Passes.{IsPassOf, built_of, known};
ghost use Rattle.co_mutex.specs.Decks.{IsResting, AreResting};

use crate::closing::{built, closed};
use crate::tally::{Tallies, Tally};
use co_mutex::{CoMutex, Guard, Lock, Pass};
use co_state::CoId;
use std::process::Abort;
use std::sync::Wait;
use std::sync::atomic::{AtomicU64, Ordering};
use std::test::Fail;
use std::thread::{Threads, join, yield_now};

/// The bell of each coroutine, which tells how often it was woken, and how many threads have begun.
#[derive(Drop)]
pub struct Bells {
    rung: [AtomicU64; 4],
    begun: AtomicU64,
}

/// Waits until all four threads have begun.
fn begin<R: Wait>(rt: &R, bells: &Bells) {
    bells.begun.fetch_add(1, Ordering::SeqCst);
    for _ in rt.forever() {
        if bells.begun.load(Ordering::SeqCst) >= 4 {
            return;
        }
        yield_now();
    }
}

/// Rings the bell of the coroutine that was named.
fn wake(bells: &Bells, named: Option<CoId>) {
    if let Some(co) = named {
        if let Some(bell) = bells.rung.get(co.co as usize) {
            bell.fetch_add(1, Ordering::SeqCst);
        }
    }
}

/// Sleeps until the bell of this coroutine was rung once more.
fn sleep<R: Wait>(rt: &R, bells: &Bells, co: CoId, woken: u64) {
    for _ in rt.forever() {
        if let Some(bell) = bells.rung.get(co.co as usize) {
            if bell.load(Ordering::SeqCst) > woken {
                return;
            }
        }
        yield_now();
    }
}

/// Takes the lock, and sleeps where it isn't free. The one wake finds the lock granted.
fn take<R: Wait + Abort>(
    rt: &R,
    lock: &CoMutex<Tallies>,
    pass: &mut Pass<Tallies>,
    bells: &Bells,
    co: CoId,
    woken: &mut u64,
) -> Guard<Tallies>
    requires pass { IsPassOf lock.now pass.old }
    requires rest { (known pass.old).place ≡ AtRest }
    ensures pass { IsPassOf lock.now pass.new }
    ensures holds { (known pass.new).place ≡ Holds }
    ensures value { result.value ≡ value_of (built_of lock.now) (known pass.new).seen }
    ensures same { (known pass.new).number ≡ (known pass.old).number }
{
    match lock.lock(rt, pass, co) {
        Lock::Held(guard) => guard,
        Lock::Queued(named) => {
            wake(bells, named);
            sleep(rt, bells, co, *woken);
            *woken = woken.wrapping_add(1);
            match lock.resumed(pass) {
                Lock::Held(guard) => guard,
                Lock::Queued(_) => panic!(rt; "{} was woken and not granted the lock", co.co),
            }
        }
    }
}

/// Takes the lock so many times and counts that, with the pass of this number.
fn add_all<R: Wait + Abort>(
    rt: &R,
    lock: &CoMutex<Tallies>,
    pass: Pass<Tallies>,
    bells: &Bells,
    number: u32,
    times: u32,
) -> Pass<Tallies>
    requires pass { IsResting lock.now number pass }
    ensures pass { IsResting lock.now number result }
{
    let co = CoId {
        co: number,
        home: 0,
    };
    begin(rt, bells);
    let mut pass = pass;
    let mut woken = 0u64;
    for held in 0..times {
        let mut guard = take(rt, lock, &mut pass, bells, co, &mut woken);
        let found = guard.value().count(number);
        assert_eq!(rt;
            found,
            Some(u64::from(held)),
            "pass {number} finds its own note"
        );
        wake(bells, lock.unlock(rt, &mut pass, guard));
    }
    pass
}

/// Two passes at once, of which the first has this number.
fn two_add<R: Threads + Wait + Abort + Sync>(
    rt: &R,
    lock: &CoMutex<Tallies>,
    first: Pass<Tallies>,
    second: Pass<Tallies>,
    bells: &Bells,
    number: u32,
    times: u32,
) -> (Pass<Tallies>, Pass<Tallies>)
    requires number { number < 4 }
    requires first { IsResting lock.now number first }
    requires second { IsResting lock.now (number + 1) second }
    ensures first { IsResting lock.now number result.0 }
    ensures second { IsResting lock.now (number + 1) result.1 }
{
    let next = number + 1;
    join(
        rt,
        || -> Pass<Tallies>
            requires { IsResting lock.now number first }
            ensures { IsResting lock.entry.now number result }
        { add_all(rt, lock, first, bells, number, times) },
        || -> Pass<Tallies>
            requires { IsResting lock.now next second }
            ensures { IsResting lock.entry.now next result }
        { add_all(rt, lock, second, bells, next, times) },
    )
}

/// Four passes at once, each on a thread of its own.
fn four_add<R: Threads + Wait + Abort + Sync>(
    rt: &R,
    lock: &CoMutex<Tallies>,
    low: (Pass<Tallies>, Pass<Tallies>),
    high: (Pass<Tallies>, Pass<Tallies>),
    bells: &Bells,
    times: u32,
) -> (
    (Pass<Tallies>, Pass<Tallies>),
    (Pass<Tallies>, Pass<Tallies>),
)
    requires low { IsResting lock.now 0 low.0 × IsResting lock.now 1 low.1 }
    requires high { IsResting lock.now 2 high.0 × IsResting lock.now 3 high.1 }
    ensures low { IsResting lock.now 0 result.0.0 × IsResting lock.now 1 result.0.1 }
    ensures high { IsResting lock.now 2 result.1.0 × IsResting lock.now 3 result.1.1 }
{
    join(
        rt,
        || -> (Pass<Tallies>, Pass<Tallies>)
            requires { IsResting lock.now 0 low.0 × IsResting lock.now 1 low.1 }
            ensures { IsResting lock.entry.now 0 result.0 × IsResting lock.entry.now 1 result.1 }
        { two_add(rt, lock, low.0, low.1, bells, 0, times) },
        || -> (Pass<Tallies>, Pass<Tallies>)
            requires { IsResting lock.now 2 high.0 × IsResting lock.now 3 high.1 }
            ensures { IsResting lock.entry.now 2 result.0 × IsResting lock.entry.now 3 result.1 }
        { two_add(rt, lock, high.0, high.1, bells, 2, times) },
    )
}

fn pair<R: Abort>(
    rt: &R,
    lock: &CoMutex<Tallies>,
    passes: &mut Vec<Pass<Tallies>>,
) -> (Pass<Tallies>, Pass<Tallies>)
    requires each { AreResting lock.now passes.old.items }
    ensures each { AreResting lock.now passes.new.items }
    ensures count { vec_len passes.new + 2 ≡ vec_len passes.old }
    ensures pair { IsResting lock.now (vec_len passes.new) result.0 × IsResting lock.now (vec_len passes.new + 1) result.1 }
{
    let Some(second) = passes.pop() else {
        panic!(rt; "there are two passes")
    };
    let Some(first) = passes.pop() else {
        panic!(rt; "there are two passes")
    };
    (first, second)
}

fn put_back<R: Abort>(
    rt: &R,
    lock: &CoMutex<Tallies>,
    passes: &mut Vec<Pass<Tallies>>,
    both: (Pass<Tallies>, Pass<Tallies>),
)
    requires each { AreResting lock.now passes.old.items }
    requires pair { IsResting lock.now (vec_len passes.old) both.0 × IsResting lock.now (vec_len passes.old + 1) both.1 }
    ensures each { AreResting lock.now passes.new.items }
    ensures count { vec_len passes.new ≡ vec_len passes.old + 2 }
{
    assert!(rt; passes.capacity() - passes.len() >= 2);
    let (first, second) = both;
    passes.push_reserved(first);
    passes.push_reserved(second);
}

/// No bell was rung yet, and no thread has begun.
fn silent() -> Bells {
    Bells {
        rung: [
            AtomicU64::new(0),
            AtomicU64::new(0),
            AtomicU64::new(0),
            AtomicU64::new(0),
        ],
        begun: AtomicU64::new(0),
    }
}

/// How often the bells were rung.
fn rung(bells: &Bells) -> u64 {
    let mut sum = 0u64;
    for bell in &bells.rung {
        sum = sum.wrapping_add(bell.load(Ordering::SeqCst));
    }
    sum
}

#[test]
fn four_threads_count_forty_thousand(rt: HostRuntime) -> Result<(), Fail> {
    let tally = Tally {
        sum: 0,
        own: [0; 4],
    };
    let (lock, mut passes) = built::<Tallies, _>(&rt, rt.alloc(), tally, 4);
    let high = pair(&rt, &lock, &mut passes);
    let low = pair(&rt, &lock, &mut passes);
    let bells = silent();
    let (low, high) = four_add(&rt, &lock, low, high, &bells, 10_000);
    put_back(&rt, &lock, &mut passes, low);
    put_back(&rt, &lock, &mut passes, high);
    let tally = closed(lock, passes);
    assert_eq!(rt; tally.sum, 40_000);
    assert_eq!(rt; tally.own, [10_000; 4]);
    println!(rt; "{} of 40000 locks slept", rung(&bells))?;
    Ok(())
}
