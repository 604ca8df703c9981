//! The answer of a turn.

/// What a turn tells.
#[derive(Clone, Copy, Debug, PartialEq, Eq)]
pub struct Turned {
    /// Whether a bottom half that wasn't idle, a handler or a timer was called.
    pub progress: bool,
    /// Whether home slept.
    pub slept: bool,
}
