//! What the commands of a loop script answer.
use crate::{Command, Commit, Flags, RanList};

/// What a command of a loop script answers: one variant for each form of a printed line.
#[derive(Debug, Drop)]
pub enum LoopReply {
    /// The flags that a call on a handle found.
    Flagged(Command, Flags),
    /// The tag of a one-shot, and whether it was put into a lot.
    Placed(u32, bool),
    /// What a poll called first, how many it called besides, whether there was progress, and how many nested polls
    /// were cut.
    Ran(RanList, u64, bool, u64),
    Committed(Commit),
    WasSet(u32),
    /// The event, and whether it was set.
    Cleared(u32, bool),
}
