//! The calls on a set of timers.

/// A call that changed a set of timers, with what it answered.
#[derive(Clone, Copy, Debug, PartialEq, Eq)]
pub enum TimerCall {
    /// A timer was made. The first has the number 0.
    Add,
    Arm { timer: u32, expire: i64 },
    Disarm { timer: u32 },
    /// A run of what is due by then was begun.
    RunBegin { now: u64 },
    /// The run gave this timer.
    Give { timer: u32 },
}
