//! What a stream does next, and what came of it.
use img_shared::{Enter, Piece};

/// What a stream does next.
#[derive(Clone, Copy, Debug, PartialEq, Eq)]
pub enum Turn {
    /// It enters its request, or retires where it has none left.
    Rest,
    /// It takes up its hold, if it has it.
    Wait,
    /// It serves the next piece.
    Serve,
    Leave,
    /// It has retired.
    Gone,
}

/// What came of a step.
#[derive(Clone, Copy, Debug, PartialEq, Eq)]
pub enum Answer {
    /// There is no such stream, or it has retired.
    Nothing,
    /// It waits, and hasn't its hold.
    StillWaits,
    Entered(Enter),
    /// It took its hold up, and this one is to be woken.
    TookUp(Option<u32>),
    Served(Piece),
    /// It left with this place, and this one is to be woken.
    Left(u32, Option<u32>),
    /// So many streams haven't retired.
    Retired(u32),
}
