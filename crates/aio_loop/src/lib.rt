//! One turn of a loop, after aio_poll of QEMU's util/aio-posix.c: home may sleep, accepts, polls, calls the handlers of the events that
//! are set, and then the timers that have expired.
#![tactic(auto)]

mod blocking;
mod bottoms;
mod expiring;
mod loop_runner;
mod side;
mod turned;
mod turning;
mod walking;

pub use aio_handlers::{HandlerId, Handlers, Ready};
pub use aio_timers::{TimerId, Timers};
pub use loop_runner::LoopRunner;
pub use side::Side;
pub use turned::Turned;
pub use turning::AioLoop;
