//! What a commit answers.

/// Why a loop stays awake.
#[derive(Clone, Copy, Debug, PartialEq, Eq)]
pub enum Why {
    /// This bottom half is due and not idle.
    Urgent(u32),
    Deadline,
    /// This event is set.
    Event(u32),
    Notified,
}

/// Whether a loop may sleep: for so many nanoseconds, or until it is woken.
#[derive(Clone, Copy, Debug, PartialEq, Eq)]
pub enum Commit {
    Sleep(Option<u64>),
    Awake(Why),
}
