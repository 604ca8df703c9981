//! What lines say.
use aio_model::{Step, Stream};

/// What a line behind the header says.
#[derive(Debug, PartialEq, Eq, Drop)]
pub(crate) enum Said {
    Declares(Stream),
    Does(Step),
}

/// How many requests there were, how many other steps, and how many bytes were read and written.
#[derive(Clone, Copy, Debug, PartialEq, Eq)]
pub(crate) struct Counts {
    pub requests: u64,
    pub pauses: u64,
    pub moved: u64,
}
