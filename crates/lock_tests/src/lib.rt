//! Tests of the lock of coroutines, by the public calls of `co_mutex` alone.
#![tactic(auto)]

#[cfg(test)]
mod adders;
#[cfg(test)]
mod closing;
#[cfg(test)]
mod crew;
mod hand;
mod number;
mod player;
#[cfg(test)]
mod rows;
mod tally;

pub use hand::{Answer, Hand, Turn};
pub use number::Number;
pub use player::Player;
pub use tally::{Tallies, Tally};
