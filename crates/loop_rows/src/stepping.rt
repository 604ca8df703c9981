//! What a thread does on any loop by its row.
ghost use Rattle.std.specs.Prelude.{◌≡◌, ◌<◌, length};
ghost use Rattle.aio_model.specs.Loop.History.{ToCall};
ghost use Rattle.aio_bh.specs.Enqueuing.{Schedules};
ghost use Rattle.aio_notify.specs.Setting.{SetsAndNotifies};
ghost use Rattle.loop_rows.specs.Rows.{AreSeatsOf, IsRow, HasNumbers};
ghost use Rattle.loop_rows.specs.Stepping.{OthersStay, SchedulesAt, SetsAt, CoroutinesStay};

use crate::rows::Row;
use crate::seats::Seats;
use crate::shared::LoopShared;
use aio_bh::BottomHalves;
use aio_model::Flags;
use aio_notify::LoopEvents;
use co_state::Origin;
use std::sync::Wait;

/// Schedules handle 0.
fn schedule_at<C: Origin + Drop, R: Wait>(
    rt: &R,
    shared: &LoopShared<C>,
    seats: &mut Seats<C>,
) -> Flags
    requires seats { AreSeatsOf seats.old.bottoms.known.first seats.old.bottoms.known.count shared.now seats.old }
    ensures seats { AreSeatsOf seats.old.bottoms.known.first seats.old.bottoms.known.count shared.now seats.new }
    ensures schedules { Schedules 0 ToCall result seats.old.bottoms.known seats.new.bottoms.known }
    ensures same { seats.new.coroutines ≡ seats.old.coroutines }
{
    shared.bottoms.schedule(rt, &mut seats.bottoms, 0)
}

/// Sets event 0, and lets the loop's home know.
fn set_event_at<C: Origin + Drop>(shared: &LoopShared<C>, seats: &mut Seats<C>)
    requires seats { AreSeatsOf seats.old.bottoms.known.first seats.old.bottoms.known.count shared.now seats.old }
    ensures seats { AreSeatsOf seats.old.bottoms.known.first seats.old.bottoms.known.count shared.now seats.new }
    ensures sets { SetsAndNotifies 0 seats.old.bottoms.known seats.new.bottoms.known }
    ensures same { seats.new.coroutines ≡ seats.old.coroutines }
{
    shared.bottoms.set_event(&mut seats.bottoms, 0);
}

impl<C: Origin + Drop> Row<C> {
    /// Schedules handle 0 of a loop, whose callback takes the coroutines that were scheduled there. Answers the flags that it found.
    pub fn schedule<R: Wait>(&mut self, rt: &R, shared: &[LoopShared<C>], to: usize) -> Flags
        requires row { IsRow shared.now self.old }
        requires to { to < length shared.now }
        ensures row { IsRow shared.now self.new × HasNumbers self.old.first self.old.count self.new }
        ensures others { OthersStay to self.old.seats.items self.new.seats.items }
        ensures schedules { SchedulesAt to result self.old.seats.items self.new.seats.items }
    {
        schedule_at(rt, &shared[to], &mut self.seats[to])
    }

    /// Sets event 0 of a loop, by which its run is to end, and lets its home know.
    pub fn set_event(&mut self, shared: &[LoopShared<C>], to: usize)
        requires row { IsRow shared.now self.old }
        requires to { to < length shared.now }
        ensures row { IsRow shared.now self.new × HasNumbers self.old.first self.old.count self.new }
        ensures others { OthersStay to self.old.seats.items self.new.seats.items }
        ensures sets { SetsAt to self.old.seats.items self.new.seats.items }
        ensures coroutines { CoroutinesStay self.old.seats.items self.new.seats.items }
    {
        set_event_at(&shared[to], &mut self.seats[to]);
    }
}
