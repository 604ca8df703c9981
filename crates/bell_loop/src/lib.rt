//! A loop script run on a shared loop: its callbacks, and its commands, each with its reply.
#![tactic(auto)]

mod acting;
mod callbacks;
mod listed;
mod machine;
mod marks;
mod stack;
mod steps;
mod tag;
mod verdict;

pub use listed::lists_of;
pub use machine::Machine;
pub use tag::Tag;
