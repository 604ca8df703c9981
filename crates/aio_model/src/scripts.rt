//! Scripts for an image, and scripts for one loop with what their commands answer.

mod image_scripts;
mod loop_replies;
mod loop_scripts;

pub use image_scripts::{Script, Step, Steps, Stream, Streams, What};
pub use loop_replies::LoopReply;
pub use loop_scripts::{Act, ActKind, Acts, Command, Commands, LoopScript};
