//! A whole loop script on the shared loop: its commands are done and their replies printed, and the loop comes to its end.
#![tactic(auto)]

mod answering;
mod printing;
mod script;

pub use script::{LoopRun, run_loop_script};
