//! The two ends of serving a script by coroutines: from a script and a device to a lock and a coroutine for each stream,
//! and from coroutines that have retired to the replies and the device. What carries the coroutines from the one end to
//! the other is the caller's.
#![tactic(auto)]

mod beginning;
mod finishing;
mod gathering;
mod giving_back;
mod room;
mod rounds;

pub use beginning::{Begun, begin};
pub use finishing::{Finished, finish};
pub use giving_back::give_back;
pub use room::EndRoom;
pub use rounds::{carry, serve_in_rounds};
