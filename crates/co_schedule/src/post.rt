//! A schedule that also lets the home's loop know.
ghost use Rattle.std.specs.Prelude.{◌≡◌, ◌≢◌, ◌<◌, MatchResult};
ghost use Rattle.aio_core.specs.Calls.{IsReady};
ghost use Rattle.co_schedule.specs.Words.{mark_at};
ghost use Rattle.co_schedule.specs.Known.{MarkCompare};
ghost use Rattle.co_schedule.specs.Standing.{IsMarkOf, Looks};
ghost use Rattle.co_schedule.specs.Parcels.{IsStateOf, has_some};
ghost use Rattle.co_schedule.specs.Calls.{IsSeatOf, HasScheduled};
ghost use Rattle.co_schedule.specs.Posting.{SchedulesHandle};

use crate::schedule::Already;
use crate::seat::CoSeat;
use crate::table::CoTable;
use aio_bh::BottomHalves;
use aio_core::{Job, LoopTable, Seat};
use aio_model::Cause;
use co_state::Origin;
use std::sync::Wait;

/// The bottom half whose callback takes the list of coroutines.
const HANDLE: u32 = 0;

impl<C: Origin + Drop> CoTable<C> {
    /// Schedules a coroutine into the home of this table, and then handle 0 of its loop, whose callback is to take the list. Where the
    /// coroutine has a mark the loop isn't touched. Any thread, with a seat of each table. It takes no memory.
    pub fn post<J: Job + Drop, R: Wait>(
        &self,
        rt: &R,
        table: &LoopTable<J>,
        seat: &mut CoSeat<C>,
        bh_seat: &mut Seat<J>,
        co: u32,
        cause: Cause,
        state: Option<C>,
    ) -> Result<(), Already<C>>
        requires seat { IsSeatOf self.now seat.old }
        requires below { co < self.now.coroutines }
        requires state { IsStateOf C.is_of co self.now.origin state }
        requires bh_seat { IsReady table.now bh_seat.old }
        requires handle { 0 < table.now.sizes.handles }
        ensures seat { IsSeatOf self.now seat.new }
        ensures bh_seat { IsReady table.now bh_seat.new }
        ensures posted { MatchResult result (λ _. HasScheduled co cause (has_some state) seat.old.known seat.new.known × SchedulesHandle bh_seat.old.known bh_seat.new.known) (λ already. (already.mark ≢ 0) × (already.state ≡ state) × Looks MarkCompare (mark_at co) already.mark seat.old.known seat.new.known × IsMarkOf co already.mark seat.old.known × (bh_seat.new ≡ bh_seat.old)) }
    {
        self.schedule(rt, seat, co, cause, state)?;
        // Where the handle was pending already, the dequeue that is due finds the coroutine too.
        let _flags = table.schedule(rt, bh_seat, HANDLE);
        Ok(())
    }
}
