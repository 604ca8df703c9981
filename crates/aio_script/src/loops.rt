//! Scripts for one loop, read line by line, and what their commands answer as text.

mod form;
mod forms;
mod lines;
mod print;
mod reader;

pub use print::{print_poll, print_reply};
pub use reader::read_loop_script;
