//! Judges a finished run: whether a list of served requests is a serial history of a script.
#![tactic(auto)]

mod cursors;
mod fitting;
mod judging;
mod putting;
#[cfg(test)]
mod tests;

pub use judging::{check_served, replay};
