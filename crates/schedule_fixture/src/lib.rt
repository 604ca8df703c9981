//! What tests and benches of scheduled coroutines have in common: a loop with one handle and the table of the coroutines of its home,
//! a callback of that handle that takes the list and begins what it took, and a thread that posts.
#![tactic(auto)]

mod callbacks;
mod parts;
mod poster;

pub use callbacks::{HomeCallback, NotesBegun, take_and_begin};
pub use parts::{HomeParts, build_parts};
pub use poster::{Poster, wake};
