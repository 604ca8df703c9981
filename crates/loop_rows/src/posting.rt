//! Posts to loops, each through the seats of that loop.
ghost use Rattle.std.specs.Prelude.{◌≡◌, ◌<◌, MatchResult, length, slice_index_or};
ghost use Rattle.co_schedule.specs.Parcels.{IsStateOf, has_some};
ghost use Rattle.loop_rows.specs.declared.shared.LoopShared.{LoopShared};
ghost use Rattle.loop_rows.specs.Posts.{IsSeated, SameNumbers, IsStateAt, Posts, FindsMarked, DoesAt};
ghost use Rattle.loop_rows.specs.Rows.{IsRow, HasNumbers};
ghost use Rattle.loop_rows.specs.Stepping.{OthersStay};

use crate::rows::Row;
use crate::seats::Seats;
use crate::shared::LoopShared;
use aio_model::Cause;
use co_schedule::Already;
use co_state::Origin;
use std::sync::Wait;

impl<C: Origin + Drop> LoopShared<C> {
    /// Posts a coroutine to this loop, with its state, if it is to bring one: see `CoTable::post`. Any thread, with seats of the loop. It
    /// takes no memory.
    pub fn post<R: Wait>(
        &self,
        rt: &R,
        seats: &mut Seats<C>,
        co: u32,
        cause: Cause,
        state: Option<C>,
    ) -> Result<(), Already<C>>
        requires seats { IsSeated self.now seats.old }
        requires below { co < self.now.coroutines.coroutines }
        requires state { IsStateOf C.is_of co self.now.coroutines.origin state }
        ensures seats { IsSeated self.now seats.new }
        ensures numbers { SameNumbers seats.old seats.new }
        ensures posts { MatchResult result (λ _. Posts co cause (has_some state) seats.old seats.new) (λ already. (already.state ≡ state) × FindsMarked co already.mark seats.old seats.new) }
    {
        self.coroutines.post(
            rt,
            &self.bottoms,
            &mut seats.coroutines,
            &mut seats.bottoms,
            co,
            cause,
            state,
        )
    }
}

impl<C: Origin + Drop> Row<C> {
    /// Posts a coroutine to a loop, with its state, if it is to bring one: see `CoTable::post`. It takes no memory.
    pub fn post<R: Wait>(
        &mut self,
        rt: &R,
        shared: &[LoopShared<C>],
        to: usize,
        co: u32,
        cause: Cause,
        state: Option<C>,
    ) -> Result<(), Already<C>>
        requires row { IsRow shared.now self.old }
        requires to { to < length shared.now }
        requires below { (t : LoopShared C C.Source) → co < (slice_index_or shared.now to t).coroutines.coroutines }
        requires state { IsStateAt C.is_of shared.now to co state }
        ensures row { IsRow shared.now self.new × HasNumbers self.old.first self.old.count self.new }
        ensures others { OthersStay to self.old.seats.items self.new.seats.items }
        ensures posts { MatchResult result (λ _. DoesAt to (Posts co cause (has_some state)) self.old.seats.items self.new.seats.items) (λ already. (already.state ≡ state) × DoesAt to (FindsMarked co already.mark) self.old.seats.items self.new.seats.items) }
    {
        shared[to].post(rt, &mut self.seats[to], co, cause, state)
    }
}
