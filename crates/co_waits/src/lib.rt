//! Who waits for what: a queue of waiters, and a lock for readers and a writer. Nothing waits here: each call
//! answers who is to be woken, and the caller wakes it.
#![tactic(auto)]

mod queue;
mod register;
mod rw_state;

pub use aio_model::{Hold, NoMemory, RwAnswer};
pub use queue::CoQueue;
pub use rw_state::{Moved, RwState};

#[cfg(test)]
mod plain;
#[cfg(test)]
mod tests;
