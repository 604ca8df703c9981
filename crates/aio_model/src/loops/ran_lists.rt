//! The list of what a poll called, of a fixed length.
ghost use Rattle.std.specs.Prelude.{◌≡◌, ◌<◌, ◌≤◌, ◌++◌, ◌∷◌, [], length, nat_le};

use std::marker::Model;

/// A bottom half that a poll called.
#[derive(Clone, Copy, Debug, PartialEq, Eq)]
pub enum Called {
    Handle(u32),
    /// A one-shot, by its tag.
    Once(u32),
}

const ROOM: usize = 256;

/// The first bottom halves that a poll called, in the order of their first entries. Contracts see the list. It has
/// room for 256, and takes no memory.
#[derive(Debug, Drop)]
pub struct RanList {
    members: [Called; 256],
    count: usize,
}

impl Model for RanList {
    ghost use Rattle.std.specs.Prelude.{List, take, ◌≤◌};
    ghost use Rattle.aio_model.specs.declared.loops.ran_lists.Called.{Called};

    ghost Value = { List Called };

    ghost view = { λ r. take r.count r.members };

    ghost invariant = { λ r. r.count ≤ 256 };
}

impl RanList {
    /// The list of none.
    pub fn build() -> RanList
        ensures { result ≡ [] }
    {
        RanList {
            members: [Called::Handle(0); 256],
            count: 0,
        }
    }

    pub fn as_slice(&self) -> &[Called]
        ensures value { result.now ≡ self.now }
        ensures few { length self.now ≤ 256 }
    {
        &self.members[..self.count]
    }

    pub fn is_full(&self) -> bool
        ensures value { result ≡ nat_le 256 (length self.now) }
        ensures few { length self.now ≤ 256 }
    {
        self.as_slice().len() >= ROOM
    }

    /// One more behind those that are there.
    pub fn push(&mut self, called: Called)
        requires { length self.old < 256 }
        ensures { self.new ≡ self.old ++ called ∷ [] }
    {
        self.members[self.count] = called;
        self.count += 1;
    }
}
