//! Whether a coroutine sleeps.

/// Whether a coroutine sleeps.
#[derive(Clone, Copy, Debug, PartialEq, Eq)]
pub enum Nap {
    Awake,
    /// It asked to sleep so many nanoseconds, and its timer isn't armed yet.
    Asked(u64),
    Armed,
}
