//! The right of a thread to step on a table.
ghost use Rattle.std.specs.Prelude.{◌≡◌, ◌<◌, ◌≤◌, ◌+◌, []};

use crate::job::Job;
use crate::view::View;
use std::marker::Model;

/// A seat of a loop's table, with which a thread steps. It owns some of the numbers 0 to 63, the first of which is its own;
/// the home's owns 64. Contracts see its table and what it knows.
#[derive(Drop)]
pub struct Seat<J: Job> {
    pub(crate) inner: atomic_table::Seat<Option<J>, View>,
    pub(crate) first: u32,
    pub(crate) count: u32,
}

impl<J: Job> Model for Seat<J> {
    ghost use Rattle.std.specs.Prelude.{◌≡◌, ◌<◌, ◌≤◌, ◌+◌, []};
    ghost use Rattle.aio_core.specs.Calls.{SeatState};

    ghost Value = { SeatState };

    ghost view = { λ s. record { table = s.inner.table_id; known = s.inner.me.0 } };

    ghost invariant = { λ s. (s.inner.me.1 ≡ []) × (s.first ≡ s.inner.me.0.first) × (s.count ≡ s.inner.me.0.count) × (0 < s.count) × (s.first + s.count ≤ 65) };
}

impl<J: Job> Seat<J> {
    pub(crate) fn of(inner: atomic_table::Seat<Option<J>, View>, first: u32, count: u32) -> Seat<J>
        requires slots { inner.me.1 ≡ [] }
        requires numbers { (inner.me.0.first ≡ first) × (inner.me.0.count ≡ count) }
        requires some { (0 < count) × (first + count ≤ 65) }
        ensures { (result.table ≡ inner.table_id) × (result.known ≡ inner.me.0) }
    {
        Seat {
            inner,
            first,
            count,
        }
    }

    /// The seat's own number.
    pub fn first(&self) -> u32
        ensures { result ≡ self.now.known.first }
    {
        self.first
    }

    /// How many numbers it owns, from its own on.
    pub fn count(&self) -> u32
        ensures value { result ≡ self.now.known.count }
        ensures some { 0 < result }
    {
        self.count
    }
}
