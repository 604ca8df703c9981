//! What tests and benches of one thread stand on: a loop with all that its calls take, and the facts about it, in one struct.
#![tactic(auto)]

mod fixture;

pub use fixture::LoopFixture;
