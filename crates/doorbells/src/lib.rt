//! Device models with doorbells, on a shared loop: a small user of `aio_core` and `aio_bh`, to read beside docs/USING.md.
//!
//! Each handle of the loop is the doorbell of a device. Any thread rings it, with a seat of its own (`ring`,
//! `ring_from_two`). The home thread answers what was rung (`answer`): it polls, and the poll enters the runner
//! (`Devices`) once for each doorbell that is due. The runner counts the answers, and where one doorbell is answered its
//! device rings another.
//!
//! What is promised stands in `specs`: `Rings` of a ring, `Answering` of a poll.
#![tactic(auto)]

mod devices;
#[cfg(test)]
mod examples;
mod polling;
mod ringing;
#[cfg(test)]
mod tests;
mod threads;

pub use devices::Devices;
pub use polling::{answer, answer_twice, ring_twice_and_answer};
pub use ringing::ring;
pub use threads::{Rung, ring_from_two, ring_from_two_and_answer};
