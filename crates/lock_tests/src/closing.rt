//! How a lock is built for a test, and closed after it.
ghost use Rattle.std.specs.Prelude.{◌≡◌, ◌<◌, ◌≤◌, vec_len, vec_capacity};
ghost use Rattle.co_mutex.specs.Passes.{passes_of, known};
ghost use Rattle.co_mutex.specs.Decks.{IsResting, AreResting};

use co_mutex::{CoMutex, LockRule, Pass};
use std::alloc::Global;
use std::process::Abort;

/// A lock with this value, and so many passes.
pub fn built<P: LockRule, R: Abort>(
    rt: &R,
    alloc: Global,
    value: P::Value,
    count: u32,
) -> (CoMutex<P>, Vec<Pass<P>>)
    requires { (1 ≤ count) × (count ≤ 64) }
    ensures size { (passes_of result.0 ≡ count) × (vec_len result.1 ≡ count) }
    ensures each { AreResting result.0 result.1.items }
{
    match CoMutex::<P>::build(alloc, value, count) {
        Ok(built) => built,
        Err(_unmade) => panic!(rt; "there is memory"),
    }
}

/// What the lock holds, when all its passes are at rest.
pub fn closed<P: LockRule>(lock: CoMutex<P>, passes: Vec<Pass<P>>) -> P::Value
    requires size { (0 < passes_of lock) × (passes_of lock ≡ vec_len passes) }
    requires each { AreResting lock passes.items }
{
    lock.close(passes)
}
