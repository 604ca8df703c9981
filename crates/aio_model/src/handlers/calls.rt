//! The calls on a set of event handlers.

/// A call that changed a set of event handlers, with what it answered.
#[derive(Clone, Copy, Debug, PartialEq, Eq)]
pub enum HandlerCall {
    Add { id: u32, event: u32, tag: u64 },
    Remove { id: u32 },
    /// A walk over the handlers of these events was begun, one bit an event.
    WalkBegin { found: u64 },
    /// The walk gave this handler.
    Give { id: u32 },
    WalkEnd,
}

/// An event handler that was added.
#[derive(Clone, Copy, Debug, PartialEq, Eq)]
pub struct Handler {
    pub id: u32,
    pub event: u32,
    pub tag: u64,
}
