//! What stands in place of a table that was asked for.

/// Why there is no table.
#[derive(Clone, Copy, Debug, PartialEq, Eq)]
pub enum BuildRefusal {
    /// So many handles and lots are more than 4,096; or else so many events are more than 64.
    TooMany(u64),
    NoMemory,
}
