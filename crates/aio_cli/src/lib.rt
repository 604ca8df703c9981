//! The one call that does all the program does.
#![tactic(auto)]

mod answer;
mod fault;
mod generated;
mod printing;
mod program;
mod read;
mod rings;
mod run;

pub use answer::{Answer, End};
pub use fault::print_fault;
pub use program::top;
