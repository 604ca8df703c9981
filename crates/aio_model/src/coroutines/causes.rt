//! The causes for which coroutines are scheduled.

/// Why a coroutine is scheduled into its home.
#[derive(Clone, Copy, Debug, PartialEq, Eq)]
pub enum Cause {
    /// It is to be entered for the first time.
    Begin,
    /// It comes from another loop.
    Move,
    /// It waits there, and is to be entered again.
    Wake,
}
