//! The tables of several loops, and rows of seats: whoever owns a row steps on each loop by it, under the same numbers everywhere.
#![tactic(auto)]

mod opening;
mod posting;
mod rows;
mod seats;
mod shared;
mod stations;
mod stepping;

pub use opening::{Homes, Opened, open};
pub use rows::Row;
pub use seats::Seats;
pub use shared::LoopShared;
pub use stations::Station;
