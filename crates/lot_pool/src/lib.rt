//! The free lots of a loop, in a queue that all threads share: whoever places a one-shot pops a lot, and the home thread pushes it
//! back once its life has ended.
#![tactic(auto)]

mod pass;
mod pool;
mod rule;
mod steps;
mod view;

pub use pass::LotPass;
pub use pool::{LotBuilt, LotPool};

#[cfg(test)]
mod tests;
