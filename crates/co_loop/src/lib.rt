//! One loop with coroutines on it: what it keeps of those that are there, and what it does as they are entered. It wakes and sends
//! others through seats of its own, one of each loop.
#![tactic(auto)]

mod again;
mod beginning;
mod building;
mod crew;
mod draining;
mod entering;
mod leaving;
mod napping;
mod naps;
mod on_loop;
mod posting;
mod quitting;
mod turning;
mod waking;
mod working;

pub use building::build_timers;
pub use crew::Crew;
pub use leaving::Leaving;
pub use naps::Nap;
pub use on_loop::CoLoop;
pub use working::{CoWork, Worked};
