//! One loop: its bottom halves, the laws of its histories, and the loop of one thread.

mod bottom_halves;
mod commits;
mod flags;
mod kinds;
mod laws;
mod one_loop;
mod ran_lists;

pub use commits::{Commit, Why};
pub use flags::Flags;
pub use kinds::Kind;
pub use laws::{
    a_deleted_one_never_runs, a_legal_history_cut_anywhere_is_legal,
    an_enqueue_between_two_dequeues, pending_is_announced_once,
};
pub use one_loop::OneLoop;
pub use ran_lists::{Called, RanList};
