//! The table that the threads of a loop share: one call for each kind of atomic step, each of which stands in the loop's one
//! history.
//!
//! Its words: `head`, the first of the list of what was pushed; `notified`, 1 once somebody has notified since home's last
//! accept; `notify_me`, 2 while home is about to sleep or sleeps; `notifier`, on which home sleeps; one for each event; and
//! for each index its `flags` and its `next`. Each lot has a slot besides, for the job of a one-shot.
//!
//! Any thread with a seat sets flags, cancels, pushes, notifies and sets events. Home alone takes the list, dequeues, frees
//! lots, steps on its way to sleep and back, and clears the notifier, `notified` and events.
//!
//! A seat is at rest; or it has announced an index, has loaded the head, has linked it; or it is to store `notified`, to load
//! `notify_me`, to set the notifier. It goes through these in order, and begins at the store where it found the index pending
//! or set an event. For a one-shot it claims a lot first. Home runs, scans, is armed, and then is committed or is to disarm.
//!
//! An index is its seat's from the announcement to the push, and that seat alone writes its `next` then. From the push to the
//! take it is the list's. From the take on it is home's, and from the dequeue on an enqueue announces it anew. A lot's slot
//! is the seat's from the claim to the enqueue, and home's from the load of its `next` to the dequeue.
//!
//! The rule that holds between any two steps is `LoopRule` (`specs/Rule.antt`).
#![tactic(auto)]

mod built;
mod cancel;
mod enqueue;
mod events;
mod home;
mod home_lots;
mod job;
mod notify;
mod once;
mod plays;
mod refusal;
mod scan;
mod seat;
mod sizes;
mod sleep;
mod slices;
mod split;
mod table;
mod tokens;
mod view;
mod whole;
mod words;

pub use built::Built;
pub use home::Home;
pub use home_lots::Dequeued;
pub use job::Job;
pub use refusal::BuildRefusal;
pub use scan::Scanned;
pub use seat::Seat;
pub use table::LoopTable;
pub use tokens::{Aimed, Announced, InHand};
pub use whole::Whole;
