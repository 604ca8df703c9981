//! The popped waiters, the first to be granted on top.
ghost use Rattle.std.specs.Prelude.{◌≡◌, ◌≢◌, ◌<◌, ◌≤◌, ◌∷◌, [], List, length, IfOk, MatchOption};

use std::alloc::{AllocError, Global};
use std::marker::Model;

/// The waiters that were taken off the pushed list, oldest first, and the last number that was published.
#[derive(Drop)]
pub struct Popped {
    list: Vec<u32>,
    last: u64,
}

impl Model for Popped {
    ghost use Rattle.std.specs.Prelude.{reverse, vec_capacity};
    ghost use Rattle.co_mutex.specs.PoppedList.{PoppedList};

    ghost Value = { PoppedList };

    ghost view = { λ s. record { waiting = reverse s.list.items; last = s.last; room = vec_capacity s.list } };
}

impl Popped {
    pub(crate) fn with_room(alloc: Global) -> Result<Popped, AllocError>
        ensures { IfOk result (λ list. list ≡ record { waiting = []; last = 0; room = 64 }) }
    {
        Ok(Popped {
            list: Vec::with_capacity(alloc, 64)?,
            last: 0,
        })
    }

    pub(crate) fn take_first(&mut self) -> Option<u32>
        ensures first { MatchOption result ((self.old.waiting ≡ []) × (self.new ≡ self.old)) (λ q. (self.old.waiting ≡ q ∷ self.new.waiting) × (self.new.last ≡ self.old.last) × (self.new.room ≡ self.old.room)) }
    {
        self.list.pop()
    }

    pub(crate) fn put_first(&mut self, q: u32)
        requires { length self.old.waiting < self.old.room }
        ensures { self.new ≡ record self.old { waiting = q ∷ self.old.waiting } }
    {
        self.list.push_reserved(q);
    }

    /// The next number to publish: it counts up from 1, and after the greatest comes 1.
    pub(crate) fn next_number(&mut self) -> u64
        ensures some { result ≢ 0 }
        ensures list { self.new ≡ record self.old { last = result } }
    {
        self.last = if self.last == u64::MAX {
            1
        } else {
            self.last + 1
        };
        self.last
    }
}
