//! Want of memory.

/// Memory ran out.
#[derive(Clone, Copy, Debug, PartialEq, Eq)]
pub struct NoMemory;

/// Memory ran out before a value could be made. What it was to be made of comes back.
#[derive(Debug, PartialEq, Eq, Drop)]
pub struct Unmade<T> {
    pub back: T,
}
