//! Coroutines that are resumed by hand, and the store in which those of one home wait.
//!
//! A coroutine holds no reference: what it needs is lent to it at each resume. What it relies on comes from
//! there too, and is called its origin.
#![tactic(auto)]

mod co;
mod cx;
mod directory;
mod store;
mod tree;

pub use aio_model::NoMemory;
pub use co::{Co, CoStep, Origin};
pub use cx::{CoId, Cx};
pub use store::{CoStore, Entered};

#[cfg(test)]
mod tests;
