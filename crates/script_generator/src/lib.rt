//! A script made from two numbers, a large valid input that is the same at each run, and what is printed of its run.
#![tactic(auto)]

mod print;
mod scripts;
mod sums;
#[cfg(test)]
mod tests;

pub use print::print_gen;
pub use scripts::generate;
pub use sums::Sums;
