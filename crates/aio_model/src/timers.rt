//! Timers: the calls on them, and what is known of them.

mod calls;
mod states;

pub use calls::TimerCall;
pub use states::{TimerState, timer_state};
