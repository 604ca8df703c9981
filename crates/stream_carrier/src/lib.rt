//! A carrier of a script's coroutines on one thread: each is resumed when a wake has named it.
#![tactic(auto)]

mod carrying;
mod serving;
mod tally;
mod woken;

pub use carrying::{carry_woken, resume_at};
pub use serving::{Carried, serve_by_wakes};
pub use tally::Tally;
pub use woken::Woken;
