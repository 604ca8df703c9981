//! What a lock's value means to each pass, and the rule of its table.
ghost use Rattle.std.specs.Prelude.{ℕ};

use crate::slot::Slot;
use crate::view::View;
use atomic_table::{Join, Split, TableRule};
use std::marker::PhantomData;
use std::snapshot::Snapshot;

/// The value behind a lock, and the note that it holds for each pass. Who has the lock leaves the notes of all other passes
/// as they are, and finds its own as it left it. It has no calls.
pub trait LockRule {
    type Value;

    type Note;

    ghost note: { Self.Value → ℕ → Self.Note };
}

/// What the table is told once: the built value, and how many passes there are.
pub struct Opened<T> {
    pub value: Snapshot<T>,
    pub passes: u64,
}

impl<T> Drop for Opened<T> {
    fn drop(self) {
        let Self {
            value: _,
            passes: _,
        } = self;
    }
}

pub struct HandOff<P> {
    rule: PhantomData<P>,
}

impl<P: LockRule> TableRule<Slot<P::Value>, View<P::Value>, Opened<P::Value>> for HandOff<P> {
    ghost use Rattle.co_mutex.specs.Opening.{holds_of, first_view_of};

    ghost holds = { holds_of P.note };

    ghost first = { first_view_of };
}

/// The first pass goes to a seat of its own.
pub struct CutOff;

impl<T> Split<View<T>> for CutOff {
    ghost use Rattle.co_mutex.specs.Opening.{behind, front};

    ghost left = { behind };

    ghost right = { front };
}

/// A seat takes in another's passes.
pub struct Together;

impl<T> Join<View<T>> for Together {
    ghost use Rattle.co_mutex.specs.Opening.{joined};
    ghost use Rattle.co_mutex.specs.Known.{spent_known};

    ghost both = { joined };

    ghost spent = { spent_known };
}
