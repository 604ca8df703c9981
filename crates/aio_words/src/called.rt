//! The calls that a source, a sink or a device had.
ghost use Rattle.std.specs.Prelude.{◌≡◌, List, [], ◌∷◌};

use chosen::Chosen;
use std::fmt;
use std::marker::{Model, PhantomData};

/// A call that a source had.
#[derive(Clone, Copy, Debug, PartialEq, Eq)]
pub struct SourceCall {
    /// How many bytes had room in the buffer.
    pub room: usize,
    /// How many came, where it didn't fail.
    pub got: Option<usize>,
}

/// A call that a sink had.
#[derive(Clone, Copy, Debug, PartialEq, Eq)]
pub struct SinkCall {
    /// How many bytes the piece had.
    pub length: usize,
    pub failed: bool,
}

/// What a device may be asked.
#[derive(Clone, Copy, Debug, PartialEq, Eq)]
pub enum DeviceAsk {
    Size,
    Read { at: u64, length: usize },
    Write { at: u64, length: usize },
    Flush,
}

/// A call that a device had.
#[derive(Clone, Copy, Debug, PartialEq, Eq)]
pub struct DeviceCall {
    pub ask: DeviceAsk,
    pub failed: bool,
}

/// A list of calls that only clauses see. No value of it is ever made.
struct CallList<C> {
    marker: PhantomData<C>,
}

impl<C> Model for CallList<C> {
    ghost Value = { List C };

    ghost view = { λ _. [] };
}

/// The calls that an object had, the newest first. Only clauses see them: it has no bytes.
#[derive(Drop)]
pub struct Trail<C> {
    calls: Chosen<CallList<C>>,
}

impl<C> Model for Trail<C> {
    ghost Value = { List C };

    ghost view = { λ trail. trail.calls.value };
}

impl<C> Trail<C> {
    /// No calls.
    pub fn empty() -> Trail<C>
        ensures { result ≡ [] }
    {
        Trail {
            calls: Chosen::pick(),
        }
    }

    /// One call more.
    pub fn note(&mut self, call: &C)
        ensures { self.new ≡ call.now ∷ self.old }
    {
        self.calls = chosen_by(call, &self.calls);
    }
}

impl<C> fmt::Debug for Trail<C> {
    fn fmt<W: fmt::Write>(&self, f: &mut fmt::Formatter<W>) -> fmt::Result {
        f.write_str("Trail")
    }
}

/// A list that the caller picks by the call and the calls before it.
fn chosen_by<C>(call: &C, calls: &Chosen<CallList<C>>) -> Chosen<CallList<C>>
    ghost list: { List C }
    ensures { result.value ≡ list }
{
    let _ = call;
    let _ = calls;
    Chosen::pick()
}
