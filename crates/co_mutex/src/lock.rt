//! The lock and its passes.
ghost use Rattle.std.specs.Prelude.{◌≡◌, ◌≤◌};
ghost use Rattle.co_mutex.specs.LockWords.{word_count};

use crate::rule::{HandOff, LockRule, Opened};
use crate::slot::Slot;
use crate::view::View;
use atomic_table::{Seat, Table};
use std::alloc::Global;

/// A lock of coroutines, whose value is with whoever holds it. All threads share it by reference.
pub struct CoMutex<P: LockRule> {
    pub(crate) table: Table<Slot<P::Value>, View<P::Value>, Opened<P::Value>, HandOff<P>, Global>,
    ghost few: { table.shared.key.passes ≤ 64 },
    ghost sized: { (table.shared.table_id.words ≡ word_count table.shared.key.passes) × (table.shared.table_id.slots ≡ 2) },
}

/// One of the passes of a lock, with which a coroutine locks and unlocks. Contracts see what it knows (`known`): where it is,
/// what of the lock's history it has seen, its own entries, and the steps that it did.
pub struct Pass<P: LockRule> {
    pub(crate) seat: Seat<Slot<P::Value>, View<P::Value>>,
    pub(crate) number: u32,
}

impl<P: LockRule> Drop for Pass<P> {
    fn drop(self) {
        let Self { seat: _, number: _ } = self;
    }
}

impl<P: LockRule> Pass<P> {
    pub(crate) fn into_seat(self) -> Seat<Slot<P::Value>, View<P::Value>>
        ensures { result ≡ self.seat }
    {
        let Self { seat, number: _ } = self;
        seat
    }
}

/// Who has it holds the lock, and has the value, which it lends.
pub struct Guard<P: LockRule> {
    pub(crate) value: P::Value,
}

/// The pass is counted among those who want the lock, and has still to be pushed by `finish_lock`. It has no `Drop`, so that
/// it can't be forgotten.
#[derive(Debug)]
pub struct Waiting {
    pub(crate) number: u32,
}

/// The lock was taken: what the compare found.
#[derive(Clone, Copy, Debug, PartialEq, Eq)]
pub struct Busy {
    pub locked: u64,
}

/// There was no memory. The value comes back.
#[derive(Drop)]
pub struct Unmade<T> {
    pub back: T,
}
