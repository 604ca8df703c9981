//! The words of the command line: what they ask the program to do, or that they are none that it takes.
#![tactic(auto)]

mod modes;
mod numbers;
mod options;
#[cfg(test)]
mod tests;

pub use modes::{Mode, mode_said};
pub use options::image_word;
