//! The answers of the calls that lock.
use crate::lock::{Guard, Waiting};
use crate::rule::LockRule;
use co_state::CoId;

/// How a lock begins.
pub enum Begun<P: LockRule> {
    /// The lock was free.
    Held(Guard<P>),
    /// The pass is counted, and `finish_lock` is still to be called.
    Later(Waiting),
}

/// What a lock comes to.
pub enum Lock<P: LockRule> {
    Held(Guard<P>),
    /// The pass is queued. The coroutine that is named was granted the lock by this call, and the caller is to wake it.
    Queued(Option<CoId>),
}
