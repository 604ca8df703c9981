//! Timers in order of expiry, and the run of those that are due.
#![tactic(auto)]

mod key_tree;
mod keys;
mod moves;
mod stamps;
mod timers;

pub use aio_model::NoMemory;
pub use timers::{TimerId, Timers};
