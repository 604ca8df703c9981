//! The text of a script's replies, where these were served in any order that keeps each stream's own.
#![tactic(auto)]

mod links;
mod order;
mod print;

pub use order::ReplyOrder;
pub use print::{errors_in, print_replies};
