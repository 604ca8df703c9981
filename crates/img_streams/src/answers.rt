//! The answers of a turn at the lock.
use co_state::CoId;
use img_shared::Piece;

/// What a stream finds out that waits for its hold.
#[derive(Clone, Copy, Debug, PartialEq, Eq)]
pub enum Grant {
    /// It waits on.
    NotYet,
    /// It took its hold up, and this is what the first piece of its request came to. The stream that is named was granted a
    /// hold too, and is to be woken.
    Granted(Option<CoId>, Piece),
}

/// What came of one turn at the lock.
#[derive(Clone, Copy, Debug, PartialEq, Eq)]
pub enum Visit<A> {
    /// The pass is queued. The coroutine that is named was granted the lock, and is to be woken.
    Waits(Option<CoId>),
    /// The lock was taken and given back, and this is what the call on the image answered. The coroutine that is named
    /// has the lock now, and is to be woken.
    Did(A, Option<CoId>),
}
