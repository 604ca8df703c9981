//! What the user of a loop brings.
ghost use Rattle.std.specs.Prelude.{◌≡◌, ◌<◌, None, true, option_map};
ghost use Rattle.aio_model.specs.Loop.InFlight.{AtRest};
ghost use Rattle.aio_model.specs.Loop.Legal.{IsLegal};
ghost use Rattle.aio_model.specs.Loop.Frame.{lent_of};
ghost use Rattle.aio_core.specs.Words.{index_count};
ghost use Rattle.aio_core.specs.Calls.{IsSeatOf, IsReady};
ghost use Rattle.aio_bh.specs.Running.{answer_by, RunsOnce};
ghost use Rattle.aio_core.specs.Known.{IsHomes};

use crate::call::Call;
use crate::turn::Turn;
use aio_core::{Job, LoopTable, Seat};

/// The callbacks of a loop. A poll enters it once for each bottom half that is due.
pub trait Runner<J: Job> {
    ghost use Rattle.aio_model.specs.Loop.History.{Sizes};
    ghost use Rattle.aio_model.specs.Loop.Frame.{Entered};

    /// What it needs of the sizes of the loop.
    ghost can_run: { Self → Sizes → Type 0 };

    /// What one entry does to it: what it was lent, what it answered, and what was made through the seat.
    ghost does: { Self → Entered → Self → Type 0 };

    /// One entry. The seat is the home's, to be given back at rest. A callback schedules and cancels through it; what it
    /// schedules is for a later poll. A first entry that brings no job is for a handle.
    fn run(&mut self, table: &LoopTable<J>, seat: &mut Seat<J>, call: &mut Call<J>) -> Turn
        requires can_run { can_run self.old table.now.sizes }
        requires seat { IsReady table.now seat.old }
        requires home { IsHomes seat.old.known }
        requires legal { IsLegal table.now.sizes seat.old.known.seen }
        requires index { call.old.bh < index_count table.now.sizes }
        requires handle { call.old.first ≡ true → call.old.job ≡ None → call.old.bh < table.now.sizes.handles }
        ensures can_run { can_run self.new table.now.sizes }
        ensures seat { IsSeatOf table.now seat.new }
        ensures runs { RunsOnce does (lent_of call.old.bh (option_map J.number_of call.old.job) call.old.first call.old.nests_left) (answer_by result) self.old seat.old.known self.new seat.new.known };
}
