//! Handlers of events, and the walk over those that are ready.
#![tactic(auto)]

mod answers;
mod handlers;
mod keys;
mod places;
mod watch;

pub use aio_model::NoMemory;
pub use answers::{AddRefusal, HandlerId, Ready, Removed};
pub use handlers::Handlers;
