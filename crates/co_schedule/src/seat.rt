//! The right of a thread to schedule.
ghost use Rattle.std.specs.Prelude.{◌≡◌, ◌<◌, ◌≤◌, ◌+◌, []};
ghost use Rattle.co_schedule.specs.Known.{AtRest};

use crate::plays::Inner;
use co_state::Origin;
use std::marker::Model;

/// A seat of a table of coroutines, with which a thread schedules. It owns some of the numbers 0 to 63, the first of which is its
/// own. Between two calls it is at rest. Contracts see its table, what it knows, and the origin of the table's coroutines.
#[derive(Drop)]
pub struct CoSeat<C: Origin> {
    pub(crate) inner: Inner<C>,
    pub(crate) first: u32,
    pub(crate) count: u32,
}

impl<C: Origin> Model for CoSeat<C> {
    ghost use Rattle.std.specs.Prelude.{◌≡◌, ◌<◌, ◌≤◌, ◌+◌, []};
    ghost use Rattle.co_schedule.specs.Known.{AtRest};
    ghost use Rattle.co_schedule.specs.Calls.{SeatState};

    ghost Value = { SeatState C.Source };

    ghost view = { λ s. record { table = s.inner.table_id; known = s.inner.me.0.known; origin = s.inner.me.0.origin } };

    ghost invariant = { λ s. (s.inner.me.1 ≡ []) × (s.first ≡ s.inner.me.0.known.first) × (s.count ≡ s.inner.me.0.known.count) × (0 < s.count) × (s.first + s.count ≤ 64) × (s.inner.me.0.known.phase ≡ AtRest) };
}

impl<C: Origin> CoSeat<C> {
    pub(crate) fn of(inner: Inner<C>, first: u32, count: u32) -> CoSeat<C>
        requires slots { inner.me.1 ≡ [] }
        requires numbers { (inner.me.0.known.first ≡ first) × (inner.me.0.known.count ≡ count) }
        requires some { (0 < count) × (first + count ≤ 64) }
        requires rest { inner.me.0.known.phase ≡ AtRest }
        ensures { (result.table ≡ inner.table_id) × (result.known ≡ inner.me.0.known) × (result.origin ≡ inner.me.0.origin) }
    {
        CoSeat {
            inner,
            first,
            count,
        }
    }

    /// The seat's own number.
    pub fn first(&self) -> u32
        ensures { result ≡ self.now.known.first }
    {
        self.first
    }

    /// How many numbers it owns, from its own on.
    pub fn count(&self) -> u32
        ensures value { result ≡ self.now.known.count }
        ensures some { 0 < result }
    {
        self.count
    }
}
