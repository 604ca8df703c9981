//! What the loop of one thread keeps of an index.
use crate::Flags;

/// What a one-thread loop keeps of an index.
#[derive(Clone, Copy, Debug, PartialEq, Eq)]
pub struct BottomHalf {
    pub flags: Flags,
    /// A lot that was begun, and not freed since.
    pub lives: bool,
    /// Was dequeued in this life.
    pub dequeued: bool,
}
