//! Scripts for an image: streams and steps.
ghost use Rattle.std.specs.Prelude.{◌≡◌};

use crate::Request;
use std::marker::Model;

/// A stream, and the loop on which it begins.
#[derive(Clone, Copy, Debug, PartialEq, Eq)]
pub struct Stream {
    pub id: u32,
    pub home: u32,
}

/// What a line of a script has its stream do.
#[derive(Debug, PartialEq, Eq, Drop)]
pub enum What {
    Ask(Request),
    /// Sleep for so many nanoseconds.
    Delay(u64),
    /// Go on on this loop.
    Move(u32),
}

/// A line of a script.
#[derive(Debug, PartialEq, Eq, Drop)]
pub struct Step {
    pub stream: u32,
    pub what: What,
}

/// The streams of a script, in the order of their lines. Contracts see the list.
#[derive(Debug, Drop)]
pub struct Streams {
    items: Vec<Stream>,
}

impl Model for Streams {
    ghost use Rattle.std.specs.Prelude.{List};
    ghost use Rattle.aio_model.specs.declared.scripts.image_scripts.Stream.{Stream};

    ghost Value = { List Stream };

    ghost view = { λ s. s.items.items };
}

impl Streams {
    /// The streams of a vector. Takes no memory.
    pub fn of(items: Vec<Stream>) -> Streams
        ensures { result ≡ items.items }
    {
        Streams { items }
    }

    pub fn as_slice(&self) -> &[Stream]
        ensures { result.now ≡ self.now }
    {
        self.items.as_slice()
    }
}

/// The lines of a script behind its streams, in order. Contracts see the list.
#[derive(Debug, Drop)]
pub struct Steps {
    items: Vec<Step>,
}

impl Model for Steps {
    ghost use Rattle.std.specs.Prelude.{List};
    ghost use Rattle.aio_model.specs.declared.scripts.image_scripts.Step.{Step};

    ghost Value = { List Step };

    ghost view = { λ s. s.items.items };
}

impl Steps {
    /// The lines of a vector. Takes no memory.
    pub fn of(items: Vec<Step>) -> Steps
        ensures { result ≡ items.items }
    {
        Steps { items }
    }

    pub fn as_slice(&self) -> &[Step]
        ensures { result.now ≡ self.now }
    {
        self.items.as_slice()
    }
}

/// A script: so many bytes of image, so many loops, the streams and what they do.
#[derive(Debug, Drop)]
pub struct Script {
    pub image: u64,
    pub loops: u32,
    pub streams: Streams,
    pub lines: Steps,
}
