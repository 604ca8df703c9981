//! What the calls on handlers answer.

/// A handler of one set of handlers. The first that was added has the number 0.
#[derive(Clone, Copy, Debug, PartialEq, Eq)]
pub struct HandlerId {
    pub number: u32,
}

/// Why a handler wasn't added.
#[derive(Clone, Copy, Debug, PartialEq, Eq)]
pub enum AddRefusal {
    /// The event has this handler already.
    Taken(HandlerId),
    /// As many handlers as there is room for are live, or were removed in the walk that is under way.
    Full,
    /// As many handlers were added as there are numbers for them.
    Worn,
}

/// What became of a handler that was to be removed, with its tag.
#[derive(Clone, Copy, Debug, PartialEq, Eq)]
pub enum Removed {
    Freed(u64),
    /// It was removed in a walk, and is freed at the walk's end.
    Marked(u64),
    /// It wasn't there.
    Gone,
}

/// A handler whose event was found.
#[derive(Clone, Copy, Debug, PartialEq, Eq)]
pub struct Ready {
    pub id: HandlerId,
    pub event: u32,
    pub tag: u64,
}
