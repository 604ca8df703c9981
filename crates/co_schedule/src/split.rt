//! Seats for more threads: the numbers of one are divided, and united again.
ghost use Rattle.std.specs.Prelude.{◌≡◌, ◌<◌, ◌≤◌, ◌+◌, ◌-◌, [], MatchOption};
ghost use Rattle.aio_model.specs.Coroutines.History.{seat_of, IsLegal};
ghost use Rattle.table_seats.specs.Seats.{longer_of};
ghost use Rattle.table_seats.specs.Calls.{IsJoined};
ghost use Rattle.co_schedule.specs.Seating.{front_known, back_known, half_cut, joined_known, told_by};
ghost use Rattle.co_schedule.specs.Calls.{IsSeatOf};

use crate::plays::{Halves, Inner, Learn, Together};
use crate::seat::CoSeat;
use crate::table::CoTable;
use crate::words::HEAD;
use co_state::Origin;

impl<C: Origin + Drop> CoTable<C> {
    fn cut(&self, seat: &mut CoSeat<C>) -> CoSeat<C>
        requires seat { IsSeatOf self.now seat.old }
        requires many { 1 < seat.old.known.count }
        ensures seat { IsSeatOf self.now seat.new }
        ensures other { IsSeatOf self.now result }
        ensures first { seat.new.known ≡ front_known (half_cut seat.old.known) seat.old.known }
        ensures last { result.known ≡ back_known (half_cut seat.old.known) seat.old.known }
    {
        let last = seat.count / 2;
        seat.count -= last;
        let inner = self.table.shared.split_seat::<Halves>(&mut seat.inner);
        CoSeat::of(inner, seat.first + seat.count, last)
    }

    /// A seat of the last half of the numbers, rounded down, for another thread. It has seen what this one has seen, and has made no
    /// step. None, where there is but one number.
    pub fn split(&self, seat: &mut CoSeat<C>) -> Option<CoSeat<C>>
        requires seat { IsSeatOf self.now seat.old }
        ensures seat { IsSeatOf self.now seat.new }
        ensures split { MatchOption result ((seat.old.known.count ≡ 1) × (seat.new ≡ seat.old)) (λ other. (1 < seat.old.known.count) × IsSeatOf self.now other × (seat.new.known ≡ front_known (half_cut seat.old.known) seat.old.known) × (other.known ≡ back_known (half_cut seat.old.known) seat.old.known)) }
    {
        if seat.count() == 1 {
            return None;
        }
        Some(self.cut(seat))
    }

    fn learn(&self, inner: &mut Inner<C>)
        requires table { inner.old.table_id ≡ self.now.table }
        requires numbers { 0 < inner.old.me.0.known.count }
        ensures seat { (inner.new.table_id ≡ inner.old.table_id) × (inner.new.id ≡ inner.old.id) × (inner.new.me.0.origin ≡ inner.old.me.0.origin) × (inner.new.me.1 ≡ inner.old.me.1) × (inner.new.me.0.known ≡ inner.old.me.0.known) }
        ensures told { MatchOption inner.old.me.0.known.told (Unit {0}) (λ told. IsJoined seat_of (IsLegal inner.old.me.0.known.coroutines) told (longer_of told.staying told.joining)) }
    {
        self.table.shared.load::<Learn>(inner, HEAD);
    }

    fn unite(&self, inner: &mut Inner<C>, other: Inner<C>)
        requires table { (inner.old.table_id ≡ self.now.table) × (other.table_id ≡ self.now.table) }
        requires numbers { 0 < inner.old.me.0.known.count }
        requires next { other.me.0.known.first ≡ inner.old.me.0.known.first + inner.old.me.0.known.count }
        requires slots { other.me.1 ≡ [] }
        ensures seat { (inner.new.table_id ≡ inner.old.table_id) × (inner.new.id ≡ inner.old.id) × (inner.new.me.0.origin ≡ inner.old.me.0.origin) × (inner.new.me.1 ≡ inner.old.me.1) }
        ensures both { inner.new.me.0.known ≡ joined_known inner.old.me.0.known other.me.0.known }
    {
        self.table.shared.join_seat::<Together>(inner, other);
    }

    /// Takes in the numbers of another seat, and learns that what either had seen is a part of the longer.
    pub(crate) fn join_inner(&self, inner: &mut Inner<C>, other: Inner<C>)
        requires table { (inner.old.table_id ≡ self.now.table) × (other.table_id ≡ self.now.table) }
        requires numbers { 0 < inner.old.me.0.known.count }
        requires next { other.me.0.known.first ≡ inner.old.me.0.known.first + inner.old.me.0.known.count }
        requires slots { other.me.1 ≡ [] }
        ensures seat { (inner.new.table_id ≡ inner.old.table_id) × (inner.new.id ≡ inner.old.id) × (inner.new.me.0.origin ≡ inner.old.me.0.origin) × (inner.new.me.1 ≡ inner.old.me.1) }
        ensures both { inner.new.me.0.known ≡ joined_known inner.old.me.0.known other.me.0.known }
        ensures parts { IsJoined seat_of (IsLegal inner.old.me.0.known.coroutines) (told_by inner.old.me.0.known other.me.0.known) inner.new.me.0.known.seen }
    {
        self.unite(inner, other);
        self.learn(inner);
    }

    /// Takes in the numbers of another seat, which begin behind this one's own. It has seen the longer of what the two have seen
    /// then, of which the other is a part.
    pub fn join(&self, seat: &mut CoSeat<C>, other: CoSeat<C>)
        requires seat { IsSeatOf self.now seat.old }
        requires other { IsSeatOf self.now other }
        requires next { other.known.first ≡ seat.old.known.first + seat.old.known.count }
        requires below { other.known.first < 64 }
        ensures seat { IsSeatOf self.now seat.new }
        ensures both { seat.new.known ≡ joined_known seat.old.known other.known }
        ensures parts { IsJoined seat_of (IsLegal self.now.coroutines) (told_by seat.old.known other.known) seat.new.known.seen }
    {
        let CoSeat {
            inner,
            first: _,
            count,
        } = other;
        self.join_inner(&mut seat.inner, inner);
        seat.count += count;
    }
}
