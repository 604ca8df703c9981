//! What the other crates speak of: the plain types of scripts, requests and replies, and in `specs/` the
//! definitions that their contracts cite.
#![tactic(auto)]

mod coroutines;
mod handlers;
mod holds;
mod loops;
mod memory;
mod scripts;
mod serving;
mod timers;

pub use coroutines::{
    Cause, an_enter_between_two_schedules, an_older_part_of_a_legal_one_is_legal,
    the_nth_entered_is_the_nth_pushed,
};
pub use handlers::{Handler, HandlerCall, HandlerState, handler_state};
pub use holds::{Hold, RwAnswer, Wish};
pub use loops::{
    Called, Commit, Flags, Kind, OneLoop, RanList, Why, a_deleted_one_never_runs,
    a_legal_history_cut_anywhere_is_legal, an_enqueue_between_two_dequeues,
    pending_is_announced_once,
};
pub use memory::{NoMemory, Unmade};
pub use scripts::{
    Act, ActKind, Acts, Command, Commands, LoopReply, LoopScript, Script, Step, Steps, Stream,
    Streams, What,
};
pub use serving::{Bytes, Placed, Reply, Request};
pub use timers::{TimerCall, TimerState, timer_state};
