//! Bottom halves of a shared loop: any thread enqueues them, and the home thread polls and calls back what is due.
//!
//! It steps on the words of `aio_core`. An enqueue sets the flags of its index. Where it found the index pending it notifies
//! and is done, since who made it pending pushes it. Else it loads the head, stores it as the index's `next`, and pushes by a
//! compare of the head. Where another head stands there it begins again at the load. Behind the push it notifies.
//!
//! A poll takes the list by one swap. Then it loads the `next` of the first index, clears that one's flags, and enters its
//! callback where it was scheduled and not deleted. It goes on until nothing is out. What a callback enqueues goes into the
//! list for the next take. A nested poll takes the list again, and also dequeues what the polls around it had left.
//!
//! An index is its seat's from the announcement to the push, then the list's, and home's from the take to the dequeue. In its
//! callback it may be enqueued again already.
//!
//! A one-shot's job is the caller's until the lot is claimed, then lies in the lot's slot, and is the callback's at its first
//! entry. The lot comes from the queue of `lot_pool`. Once the callback has ended, home frees the lot and gives it back;
//! where the queue is full, home's pass keeps it until the next poll.
#![tactic(auto)]

mod call;
mod enqueue;
mod frames;
mod once;
mod polled;
mod polls;
mod put;
mod runner;
mod turn;

pub use call::Call;
pub use lot_pool::{LotBuilt, LotPass, LotPool};
pub use once::NoRoom;
pub use polled::Polled;
pub use polls::BottomHalves;
pub use put::Put;
pub use runner::Runner;
pub use turn::Turn;
