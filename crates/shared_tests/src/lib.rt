//! Tests of the image that many streams share, by its public calls alone. They stand apart from `img_shared`, so that its
//! own proof isn't made once more with them. What is expected was worked out by hand.
#![tactic(auto)]

#[cfg(test)]
mod blocks;
#[cfg(test)]
mod faults;
#[cfg(test)]
mod orders;
mod player;
#[cfg(test)]
mod replies;
#[cfg(test)]
mod rows;
#[cfg(test)]
mod stage;
mod table;
mod turn;

pub use player::Player;
pub use table::Table;
pub use turn::{Answer, Turn};
