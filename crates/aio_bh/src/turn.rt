//! The answer of a callback.

/// What a callback answers at the end of an entry.
#[derive(Clone, Copy, Debug, PartialEq, Eq)]
pub enum Turn {
    Done,
    /// It asks for a nested poll, and to be entered again after it.
    Nest,
}
