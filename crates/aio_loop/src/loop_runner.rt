//! What a loop calls: bottom halves, handlers and timers.
ghost use Rattle.std.specs.Prelude.{◌≡◌, ◌<◌, None, true, option_map};
ghost use Rattle.aio_model.specs.Loop.InFlight.{AtRest};
ghost use Rattle.aio_model.specs.Loop.Legal.{IsLegal};
ghost use Rattle.aio_model.specs.Loop.Frame.{lent_of};
ghost use Rattle.aio_core.specs.Words.{index_count};
ghost use Rattle.aio_core.specs.Calls.{IsSeatOf, IsReady};
ghost use Rattle.aio_bh.specs.Running.{answer_by};
ghost use Rattle.aio_loop.specs.Entering.{ForBottom, ForReady, ForExpired, RunsOneEntry};
ghost use Rattle.aio_core.specs.Known.{IsHomes};

use crate::side::Side;
use aio_bh::{Call, Turn};
use aio_core::{Job, LoopTable, Seat};
use aio_handlers::Ready;
use aio_timers::TimerId;

/// What a loop calls. A turn enters it once for each bottom half that is due, each handler whose event was set, and each timer
/// that has expired. In all three the seat is the home's, to be given back at rest, and the callee may add and remove handlers, and
/// add, arm and disarm timers.
pub trait LoopRunner<J: Job> {
    ghost use Rattle.std.specs.Prelude.{ℕ};
    ghost use Rattle.aio_model.specs.Loop.History.{Sizes};
    ghost use Rattle.aio_loop.specs.Entering.{LoopEntered};

    /// What it needs of the sizes of the loop, and of how many timers there are.
    ghost can_run: { Self → Sizes → ℕ → Type 0 };

    /// What one entry does to it: what it was for, and what was made through the seat and done to the side.
    ghost does: { Self → LoopEntered → Self → Type 0 };

    /// One entry for a bottom half, as a runner of a poll has it.
    fn bottom(
        &mut self,
        table: &LoopTable<J>,
        seat: &mut Seat<J>,
        side: &mut Side,
        call: &mut Call<J>,
    ) -> Turn
        requires can_run { can_run self.old table.now.sizes side.old.timers.made }
        requires seat { IsReady table.now seat.old }
        requires home { IsHomes seat.old.known }
        requires legal { IsLegal table.now.sizes seat.old.known.seen }
        requires index { call.old.bh < index_count table.now.sizes }
        requires handle { call.old.first ≡ true → call.old.job ≡ None → call.old.bh < table.now.sizes.handles }
        ensures can_run { can_run self.new table.now.sizes side.new.timers.made }
        ensures seat { IsSeatOf table.now seat.new }
        ensures runs { RunsOneEntry does (ForBottom (lent_of call.old.bh (option_map J.number_of call.old.job) call.old.first call.old.nests_left) (answer_by result)) self.old side.old seat.old.known self.new side.new seat.new.known };

    /// The event of this handler was found set, and is cleared now.
    fn ready(&mut self, table: &LoopTable<J>, seat: &mut Seat<J>, side: &mut Side, ready: Ready)
        requires can_run { can_run self.old table.now.sizes side.old.timers.made }
        requires seat { IsReady table.now seat.old }
        requires home { IsHomes seat.old.known }
        requires legal { IsLegal table.now.sizes seat.old.known.seen }
        ensures can_run { can_run self.new table.now.sizes side.new.timers.made }
        ensures seat { IsSeatOf table.now seat.new }
        ensures runs { RunsOneEntry does (ForReady ready) self.old side.old seat.old.known self.new side.new seat.new.known };

    /// This timer has expired, and isn't armed any more.
    fn expired(&mut self, table: &LoopTable<J>, seat: &mut Seat<J>, side: &mut Side, id: TimerId)
        requires can_run { can_run self.old table.now.sizes side.old.timers.made }
        requires seat { IsReady table.now seat.old }
        requires home { IsHomes seat.old.known }
        requires legal { IsLegal table.now.sizes seat.old.known.seen }
        ensures can_run { can_run self.new table.now.sizes side.new.timers.made }
        ensures seat { IsSeatOf table.now seat.new }
        ensures runs { RunsOneEntry does (ForExpired id) self.old side.old seat.old.known self.new side.new seat.new.known };
}
