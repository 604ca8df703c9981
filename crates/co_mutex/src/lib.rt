//! A lock of coroutines with hand-off, after CoMutex of QEMU's util/qemu-coroutine-lock.c, but it doesn't spin, has
//! `try_lock`, and grants each waiter by a word of its own.
//!
//! The words of its table: `locked`, how many hold the lock or want it; `handoff`, 0 or the number of a hand-off that is
//! published; `head`, the first of the pushed waiters; and for each pass `next`, `grant` and `who`, its coroutine. The value
//! lies in one slot. The popped waiters lie in a second, with the last number that was published.
//!
//! A pass adds 1 to `locked`, and holds where that was 0. Else it pushes itself and looks at the hand-off. Who gives the lock
//! up subtracts 1, and has the duty to wake where that was more than 1: it grants the first waiter, or it publishes the
//! hand-off where nobody was pushed yet, and looks once more. Who takes a published hand-off has the duty.
//!
//! A pass is at rest, is counted, is pushed and then queued until it is granted, and holds. The holder has the value: it
//! moves it out of its slot behind the step by which it found the lock its own, and back before its sub. The list of popped
//! waiters is with who has the duty, and goes back to its slot before a grant and before a hand-off is published.
//!
//! At every moment one of these has the lock to go on with: nobody, an owner, a pass with the duty, or a hand-off that is
//! published, at which some pass has still to look (`Baton` in `specs/Rule.antt`).
#![tactic(auto)]

mod answers;
mod built;
mod closed;
mod ids;
mod lends;
mod lock;
mod locking;
#[cfg(test)]
mod orders;
mod plays;
mod popped;
mod queuing;
mod rule;
mod slot;
mod steps;
mod unlocking;
mod view;
mod wake_steps;
mod waking;
mod words;

pub use answers::{Begun, Lock};
pub use lock::{Busy, CoMutex, Guard, Pass, Unmade, Waiting};
pub use rule::LockRule;
