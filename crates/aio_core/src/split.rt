//! Seats for more threads: the numbers of one are divided, and united again.
ghost use Rattle.std.specs.Prelude.{◌≡◌, ◌<◌, ◌+◌, ◌-◌, ◌/◌, MatchOption};
ghost use Rattle.aio_model.specs.Loop.InFlight.{AtRest};
ghost use Rattle.table_seats.specs.Seats.{longer_of};
ghost use Rattle.table_seats.specs.Dividing.{half_as_many};
ghost use Rattle.aio_core.specs.Splitting.{front_known, back_known};
ghost use Rattle.aio_core.specs.Joining.{joined_known, told_of, IsJoined};
ghost use Rattle.aio_core.specs.Calls.{IsSeatOf, IsReady};

use crate::job::Job;
use crate::plays::{Halves, Learn, Together};
use crate::seat::Seat;
use crate::table::LoopTable;
use crate::words::HEAD;

impl<J: Job> LoopTable<J> {
    fn cut(&self, seat: &mut Seat<J>) -> Seat<J>
        requires seat { IsSeatOf self.now seat.old }
        requires many { 1 < seat.old.known.count }
        ensures seat { IsSeatOf self.now seat.new }
        ensures other { IsSeatOf self.now result }
        ensures first { seat.new.known ≡ front_known (seat.old.known.count - half_as_many seat.old.known.count) seat.old.known }
        ensures last { result.known ≡ back_known (seat.old.known.count - half_as_many seat.old.known.count) seat.old.known }
    {
        let last = seat.count / 2;
        seat.count -= last;
        let inner = self.table.shared.split_seat::<Halves>(&mut seat.inner);
        Seat::of(inner, seat.first + seat.count, last)
    }

    /// A seat of the last half of the numbers, rounded down, for another thread. It has seen what this one has seen, and
    /// has made no step. None, where there is but one number.
    pub fn split(&self, seat: &mut Seat<J>) -> Option<Seat<J>>
        requires seat { IsReady self.now seat.old }
        ensures seat { IsSeatOf self.now seat.new }
        ensures split { MatchOption result ((seat.old.known.count ≡ 1) × (seat.new ≡ seat.old)) (λ other. (1 < seat.old.known.count) × IsSeatOf self.now other × (seat.new.known ≡ front_known (seat.old.known.count - half_as_many seat.old.known.count) seat.old.known) × (other.known ≡ back_known (seat.old.known.count - half_as_many seat.old.known.count) seat.old.known)) }
    {
        if seat.count() == 1 {
            return None;
        }
        Some(self.cut(seat))
    }

    pub(crate) fn unite(&self, seat: &mut Seat<J>, other: Seat<J>)
        requires seat { IsSeatOf self.now seat.old }
        requires other { IsReady self.now other }
        requires next { other.known.first ≡ seat.old.known.first + seat.old.known.count }
        ensures seat { IsSeatOf self.now seat.new }
        ensures both { seat.new.known ≡ joined_known seat.old.known other.known }
    {
        let Seat {
            inner,
            first: _,
            count,
        } = other;
        self.table
            .shared
            .join_seat::<Together>(&mut seat.inner, inner);
        seat.count += count;
    }

    pub(crate) fn learn(&self, seat: &mut Seat<J>)
        requires { IsSeatOf self.now seat.old }
        ensures same { seat.new ≡ seat.old }
        ensures told { MatchOption seat.old.known.told (Unit {0}) (λ told. IsJoined seat.old.known.sizes told (longer_of told.staying told.joining)) }
    {
        self.table.shared.load::<Learn>(&mut seat.inner, HEAD);
    }

    /// Takes in the numbers of another seat, which begin behind this one's own; both at rest. It has seen the longer of what
    /// the two have seen then, of which the other is a part.
    pub fn join(&self, seat: &mut Seat<J>, other: Seat<J>)
        requires seat { IsReady self.now seat.old }
        requires other { IsReady self.now other }
        requires next { other.known.first ≡ seat.old.known.first + seat.old.known.count }
        requires below { other.known.first < 64 }
        ensures seat { IsSeatOf self.now seat.new }
        ensures both { seat.new.known ≡ joined_known seat.old.known other.known }
        ensures parts { IsJoined self.now.sizes (told_of seat.old.known other.known) seat.new.known.seen }
    {
        self.unite(seat, other);
        self.learn(seat);
    }
}
