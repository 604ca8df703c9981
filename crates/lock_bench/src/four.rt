//! Four passes, each on a thread of its own.
ghost use Rattle.std.specs.Prelude.{◌≡◌, ◌<◌, ◌≤◌, ◌+◌, IfSome, vec_len, vec_capacity};
ghost use Rattle.co_mutex.specs.Passes.{passes_of};
ghost use Rattle.co_mutex.specs.Decks.{IsResting, AreResting};

use crate::bells::Bells;
use crate::number::Number;
use crate::turns::take_turns;
use co_mutex::{CoMutex, Pass};
use std::alloc::Global;
use std::io;
use std::sync::Wait;
use std::thread::{Threads, join};

/// How often each pass locks.
const TURNS: u32 = 100_000;

/// Two passes at once, of which the first has this number.
fn two_take<R: Threads + Wait + Sync>(
    rt: &R,
    lock: &CoMutex<Number>,
    passes: (Pass<Number>, Pass<Number>),
    bells: &Bells,
    number: u32,
) -> (Pass<Number>, Pass<Number>)
    requires number { number < 4 }
    requires passes { IsResting lock.now number passes.0 × IsResting lock.now (number + 1) passes.1 }
    ensures passes { IsResting lock.now number result.0 × IsResting lock.now (number + 1) result.1 }
{
    let (first, second) = passes;
    let next = number + 1;
    join(
        rt,
        || -> Pass<Number>
            requires { IsResting lock.now number first }
            ensures { IsResting lock.entry.now number result }
        { take_turns(rt, lock, first, bells, number, TURNS) },
        || -> Pass<Number>
            requires { IsResting lock.now next second }
            ensures { IsResting lock.entry.now next result }
        { take_turns(rt, lock, second, bells, next, TURNS) },
    )
}

/// Four passes at once.
fn four_take<R: Threads + Wait + Sync>(
    rt: &R,
    lock: &CoMutex<Number>,
    low: (Pass<Number>, Pass<Number>),
    high: (Pass<Number>, Pass<Number>),
) -> ((Pass<Number>, Pass<Number>), (Pass<Number>, Pass<Number>))
    requires low { IsResting lock.now 0 low.0 × IsResting lock.now 1 low.1 }
    requires high { IsResting lock.now 2 high.0 × IsResting lock.now 3 high.1 }
    ensures low { IsResting lock.now 0 result.0.0 × IsResting lock.now 1 result.0.1 }
    ensures high { IsResting lock.now 2 result.1.0 × IsResting lock.now 3 result.1.1 }
{
    let bells = Bells::silent();
    join(
        rt,
        || -> (Pass<Number>, Pass<Number>)
            requires { IsResting lock.now 0 low.0 × IsResting lock.now 1 low.1 }
            ensures { IsResting lock.entry.now 0 result.0 × IsResting lock.entry.now 1 result.1 }
        { two_take(rt, lock, low, &bells, 0) },
        || -> (Pass<Number>, Pass<Number>)
            requires { IsResting lock.now 2 high.0 × IsResting lock.now 3 high.1 }
            ensures { IsResting lock.entry.now 2 result.0 × IsResting lock.entry.now 3 result.1 }
        { two_take(rt, lock, high, &bells, 2) },
    )
}

/// A lock with four passes.
fn built(alloc: Global) -> Option<(CoMutex<Number>, Vec<Pass<Number>>)>
    ensures { IfSome result (λ r. (passes_of r.0 ≡ 4) × (vec_len r.1 ≡ 4) × AreResting r.0 r.1.items) }
{
    match CoMutex::<Number>::build(alloc, 0, 4) {
        Ok(built) => Some(built),
        Err(_unmade) => None,
    }
}

/// The last two of the passes.
fn pair(lock: &CoMutex<Number>, passes: &mut Vec<Pass<Number>>) -> (Pass<Number>, Pass<Number>)
    requires each { AreResting lock.now passes.old.items }
    requires count { 2 ≤ vec_len passes.old }
    ensures each { AreResting lock.now passes.new.items }
    ensures count { vec_len passes.new + 2 ≡ vec_len passes.old }
    ensures room { vec_capacity passes.new ≡ vec_capacity passes.old }
    ensures pair { IsResting lock.now (vec_len passes.new) result.0 × IsResting lock.now (vec_len passes.new + 1) result.1 }
{
    let Some(second) = passes.pop() else {
        unreachable!()
    };
    let Some(first) = passes.pop() else {
        unreachable!()
    };
    (first, second)
}

fn put_back(
    lock: &CoMutex<Number>,
    passes: &mut Vec<Pass<Number>>,
    both: (Pass<Number>, Pass<Number>),
)
    requires each { AreResting lock.now passes.old.items }
    requires pair { IsResting lock.now (vec_len passes.old) both.0 × IsResting lock.now (vec_len passes.old + 1) both.1 }
    requires room { vec_len passes.old + 2 ≤ vec_capacity passes.old }
    ensures each { AreResting lock.now passes.new.items }
    ensures count { vec_len passes.new ≡ vec_len passes.old + 2 }
    ensures room { vec_capacity passes.new ≡ vec_capacity passes.old }
{
    let _lock = lock;
    let (first, second) = both;
    passes.push_reserved(first);
    passes.push_reserved(second);
}

/// What the lock holds, when all its passes are at rest.
fn closed(lock: CoMutex<Number>, passes: Vec<Pass<Number>>) -> u64
    requires size { (0 < passes_of lock) × (passes_of lock ≡ vec_len passes) }
    requires each { AreResting lock passes.items }
{
    lock.close(passes)
}

pub fn four_threads<R: Threads + Wait + Sync + Print>(rt: &R, alloc: Global) -> io::Result<()> {
    let Some((lock, mut passes)) = built(alloc) else {
        return Err(io::Error::from(io::ErrorKind::OutOfMemory));
    };
    let high = pair(&lock, &mut passes);
    let low = pair(&lock, &mut passes);
    let (low, high) = four_take(rt, &lock, low, high);
    put_back(&lock, &mut passes, low);
    put_back(&lock, &mut passes, high);
    println!(rt; "{} turns of four passes", closed(lock, passes))
}
