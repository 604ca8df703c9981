//! What wakes a home and what lets it sleep, over the table of its loop.
//!
//! It steps on three words of that table. A notify is called by any thread, behind what it enqueued. It has three steps in an
//! order that matters: it stores 1 into `notified`, then looks at `notify_me`, and only where that isn't 0 sets the
//! `notifier`, on which home sleeps. Home goes the other way round: it adds 2 to `notify_me`, and then looks at `notified`.
//! So one of the two sees the other.
//!
//! A seat is in flight for its index from the enqueue to the end of the notify. Home runs, scans what was pushed, is armed,
//! and then is committed where it found `notified` 0. Else it is to disarm. A committed home waits for the notifier. Awake
//! again it disarms, and accepts: it clears the notifier first and then `notified`.
//!
//! Events are words of the table too. Any thread sets one and then notifies. Home looks at those that it watches before it
//! arms, and clears them while it runs.
//!
//! At the end a committed home takes in all numbers. Nobody else can be under way then, and one look at each word tells
//! whether the loop has come to its end.
#![tactic(auto)]

mod events;
mod loop_end;
mod notification;
mod parking;
mod settling;
mod sleeping;
#[cfg(test)]
mod tests;
mod watching;

pub use events::LoopEvents;
pub use loop_end::{LoopEnd, Settled, Unsettled};
pub use notification::Notify;
pub use settling::settle;
pub use sleeping::Sleeping;
