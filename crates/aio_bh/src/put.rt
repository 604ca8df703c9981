//! The answer of an enqueue that tries once.
use aio_core::Announced;
use aio_model::Flags;

/// What came of an enqueue that tried once to push the index.
#[derive(Debug)]
pub enum Put {
    /// Whatever there was to push was pushed. These flags were found.
    Done(Flags),
    /// The seat is still to push the index: give the debt to `push_owed`.
    Owed(Flags, Announced),
}
