//! The kinds of call on a bottom half.

/// What a call asks of a bottom half.
#[derive(Clone, Copy, Debug, PartialEq, Eq)]
pub enum Kind {
    /// To be called.
    Sched,
    /// To be called, without waking the loop.
    Idle,
    /// Never to be called again.
    Del,
}
