//! Event handlers: the calls on them, and what is known of them.

mod calls;
mod states;

pub use calls::{Handler, HandlerCall};
pub use states::{HandlerState, handler_state};
