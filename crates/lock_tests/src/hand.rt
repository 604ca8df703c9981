//! What a pass has, and what it is to do.
use crate::number::Number;
use co_mutex::{Guard, Waiting};
use co_state::CoId;

/// What a pass has between two calls.
pub enum Hand {
    Rests,
    Counted(Waiting),
    Queued,
    Holds(Guard<Number>),
}

/// A call of a pass. A lock is for the coroutine of the pass, and an unlock adds so much before.
#[derive(Clone, Copy, Debug, PartialEq, Eq)]
pub enum Turn {
    TryLock,
    BeginLock,
    FinishLock,
    Lock,
    Resumed,
    Unlock(u64),
}

/// What a call answered. Who holds tells the value.
#[derive(Clone, Copy, Debug, PartialEq, Eq)]
pub enum Answer {
    Held(u64),
    Busy(u64),
    Later,
    Queued(Option<CoId>),
    Unlocked(Option<CoId>),
    /// The pass may not make this call where it stands.
    OutOfTurn,
}
