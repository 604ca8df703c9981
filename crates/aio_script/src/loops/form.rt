//! The forms of lines of loop scripts, and what such lines say.
use aio_model::{Act, Command};

/// A call on a handle.
#[derive(Clone, Copy, Debug, PartialEq, Eq)]
pub(crate) enum Verb {
    Schedule,
    Idle,
    Delete,
    Cancel,
}

/// A line behind the header, by its words. What is a number in a form is still the word that stands for it.
#[derive(Clone, Copy, Debug)]
pub(crate) enum LoopForm<'a> {
    /// `on I VERB J`
    OnCall(Verb, &'a [u8], &'a [u8]),
    /// `on I nest`
    OnNest(&'a [u8]),
    Call(Verb, &'a [u8]),
    Once(&'a [u8]),
    Poll,
    Commit,
    Set(&'a [u8]),
    Clear(&'a [u8]),
}

/// The words behind `loop` in the header.
#[derive(Clone, Copy, Debug)]
pub(crate) struct SizeWords<'a> {
    pub handles: &'a [u8],
    pub lots: &'a [u8],
    pub events: &'a [u8],
}

/// What the header says.
#[derive(Clone, Copy, Debug, PartialEq, Eq)]
pub(crate) struct LoopHeader {
    pub handles: u32,
    pub lots: u32,
    pub events: u32,
}

/// What a line behind the header says.
#[derive(Clone, Copy, Debug, PartialEq, Eq)]
pub(crate) enum LoopSaid {
    Adds(Act),
    Asks(Command),
}
