//! The end of a table, at which all its seats are there.
ghost use Rattle.std.specs.Prelude.{◌≡◌, ◌<◌, ◌+◌, [], MatchOption, MatchResult};
ghost use Rattle.aio_model.specs.Coroutines.History.{Free, co_place_of, seat_of, IsLegal};
ghost use Rattle.table_seats.specs.Calls.{IsJoined};
ghost use Rattle.co_schedule.specs.Words.{mark_at, mark_of};
ghost use Rattle.co_schedule.specs.Known.{MarkLoad};
ghost use Rattle.co_schedule.specs.Standing.{Looks};
ghost use Rattle.co_schedule.specs.Seating.{joined_known, told_by};
ghost use Rattle.co_schedule.specs.Calls.{IsSeatOf, AreFree, Ends, IsLeftOver};
ghost use Rattle.co_schedule.specs.Closing.{ClosesAs};
ghost use Rattle.co_schedule.specs.States.{states_taken};
ghost use Rattle.aio_model.specs.Counts.{counted};

use crate::built::CoBuilt;
use crate::ends::{CoClosed, CoEnd};
use crate::homes::CoHome;
use crate::plays::{Inner, LookAtMark};
use crate::seat::CoSeat;
use crate::table::CoTable;
use crate::words::mark_word;
use co_state::Origin;

impl<C: Origin + Drop> CoTable<C> {
    /// Loads a mark, where the seat owns all numbers.
    fn look_at_mark(&self, inner: &mut Inner<C>, co: u32) -> u64
        requires table { inner.old.table_id ≡ self.now.table }
        requires numbers { (inner.old.me.0.known.first ≡ 0) × (inner.old.me.0.known.count ≡ 65) }
        requires below { co < self.now.coroutines }
        ensures seat { (inner.new.table_id ≡ inner.old.table_id) × (inner.new.id ≡ inner.old.id) × (inner.new.me.0.origin ≡ inner.old.me.0.origin) × (inner.new.me.1 ≡ inner.old.me.1) }
        ensures looks { Looks MarkLoad (mark_at co) result inner.old.me.0.known inner.new.me.0.known }
        ensures mark { result ≡ mark_of (co_place_of co inner.old.me.0.known.seen) }
    {
        self.table.shared.load::<LookAtMark>(inner, mark_word(co))
    }

    /// The least coroutine that has a mark.
    fn first_marked(&self, inner: &mut Inner<C>) -> Option<u32>
        requires table { inner.old.table_id ≡ self.now.table }
        requires numbers { (inner.old.me.0.known.first ≡ 0) × (inner.old.me.0.known.count ≡ 65) }
        ensures seat { (inner.new.table_id ≡ inner.old.table_id) × (inner.new.id ≡ inner.old.id) × (inner.new.me.0.origin ≡ inner.old.me.0.origin) × (inner.new.me.1 ≡ inner.old.me.1) }
        ensures same { inner.new.me.0.known ≡ record inner.old.me.0.known { did = inner.new.me.0.known.did } }
        ensures found { MatchOption result (AreFree self.now.coroutines inner.old.me.0.known.seen) (λ co. (co < self.now.coroutines) × (0 < mark_of (co_place_of co inner.old.me.0.known.seen)) × AreFree co inner.old.me.0.known.seen) }
    {
        let mut co = 0;
        while co < self.coroutines {
            if self.look_at_mark(inner, co) != 0 {
                return Some(co);
            }
            co += 1;
        }
        None
    }

    /// Unites all seats in one, and tells how many coroutines were entered with a state.
    fn gather(&self, home: CoHome<C>, seat: CoSeat<C>) -> (Inner<C>, u64)
        requires home { IsSeatOf self.now home }
        requires seat { IsSeatOf self.now seat }
        requires numbers { (seat.known.first ≡ 0) × (seat.known.count ≡ 64) }
        ensures known { result.0.me.0.known ≡ joined_known seat.known home.known }
        ensures seat { (result.0.table_id ≡ self.now.table) × (result.0.me.0.origin ≡ seat.origin) × (result.0.me.1 ≡ []) }
        ensures parts { IsJoined seat_of (IsLegal self.now.coroutines) (told_by seat.known home.known) result.0.me.0.known.seen }
        ensures states { result.1 ≡ counted (states_taken result.0.me.0.known.seen) }
    {
        let CoHome {
            inner: other,
            states,
        } = home;
        let CoSeat {
            mut inner,
            first: _,
            count: _,
        } = seat;
        self.join_inner(&mut inner, other);
        (inner, states)
    }

    fn end(self, home: CoHome<C>, seat: CoSeat<C>) -> Result<CoEnd<C>, (u32, CoBuilt<C>)>
        requires home { IsSeatOf self home }
        requires seat { IsSeatOf self seat }
        requires numbers { (seat.known.first ≡ 0) × (seat.known.count ≡ 64) }
        ensures { MatchResult result (λ end. Ends self home.known seat.known end) (λ left. IsLeftOver left.0 self home.known seat.known left.1.table left.1.home left.1.seat) }
    {
        let (mut inner, states) = self.gather(home, seat);
        match self.first_marked(&mut inner) {
            Some(co) => Err((co, self.open(inner, states))),
            None => Ok(CoEnd::of(inner, states)),
        }
    }

    /// Ends the table, or answers the least coroutine that was scheduled and not entered since, with the table as it is. The seat owns
    /// all numbers but the home's. It takes no memory.
    pub fn close(self, home: CoHome<C>, seat: CoSeat<C>) -> CoClosed<C>
        requires home { IsSeatOf self home }
        requires seat { IsSeatOf self seat }
        requires numbers { (seat.known.first ≡ 0) × (seat.known.count ≡ 64) }
        ensures { ClosesAs self home.known seat.known result }
    {
        match self.end(home, seat) {
            Ok(end) => CoClosed::Ended(end),
            Err((co, built)) => CoClosed::Left(co, built),
        }
    }
}
