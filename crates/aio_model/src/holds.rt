//! What somebody has, wishes and is answered of a lock for readers and a writer.

/// What somebody has of a lock for readers and a writer.
#[derive(Clone, Copy, Debug, PartialEq, Eq)]
pub enum Hold {
    Free,
    Reads,
    Writes,
    WaitsRead,
    WaitsWrite,
}

/// What somebody waits for.
#[derive(Clone, Copy, Debug, PartialEq, Eq)]
pub enum Wish {
    Read,
    Write,
}

/// Whether a hold was got at once; else its ticket is the last.
#[derive(Clone, Copy, Debug, PartialEq, Eq)]
pub enum RwAnswer {
    Got,
    Queued,
}
