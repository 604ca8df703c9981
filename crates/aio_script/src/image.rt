//! Scripts for an image, read line by line, and the lines of replies.

mod form;
mod forms;
pub(crate) mod lines;
pub(crate) mod reader;
mod replies;
mod said;

pub use reader::read_script;
pub use replies::{print_end, print_line};
