//! The struct, and its calls. Each hands on to the call of the same name on the table.
ghost use Rattle.std.specs.Prelude.{◌≡◌, ◌<◌, ◌≤◌, ◌+◌, IfOk, MatchResult};
ghost use Rattle.aio_model.specs.Loop.History.{ToCall, ToCallIdle, ToDelete};
ghost use Rattle.aio_core.specs.Known.{empty_stage};
ghost use Rattle.aio_core.specs.Calls.{IsReady};
ghost use Rattle.aio_core.specs.Opening.{IsNew};
ghost use Rattle.aio_core.specs.Standing.{Cancels};
ghost use Rattle.aio_bh.specs.Enqueuing.{Schedules};
ghost use Rattle.aio_bh.specs.OneShots.{ServesHome, FindsNoRoom, PlacesOnce};
ghost use Rattle.aio_bh.specs.Polling.{Polls};
ghost use Rattle.lot_pool.specs.Pools.{IsPassOf};

use aio_bh::{BottomHalves, LotBuilt, LotPool, NoRoom, Polled, Runner};
use aio_core::{Built, Home, Job, LoopTable, Seat};
use aio_model::{Flags, NoMemory};
use std::alloc::Global;
use std::sync::Wait;

/// A table of a loop with its home's seat, a seat that has all other numbers, and the pool of its lots. Both seats are at rest,
/// and outside a poll home has taken nothing.
#[derive(Drop)]
pub struct LoopFixture<J: Job + Drop> {
    pub table: LoopTable<J>,
    pub home: Home<J>,
    pub seat: Seat<J>,
    pub lots: LotBuilt,
    ghost serves: { ServesHome table.sizes lots.pool lots.home },
    ghost pass_of: { IsPassOf lots.pool lots.pass },
    ghost home_ready: { IsReady table home.seat },
    ghost home_empty: { home.seat.known.stage ≡ empty_stage },
    ghost seat_ready: { IsReady table seat },
}

impl<J: Job + Drop> LoopFixture<J> {
    /// A loop with so many handles, lots and events, on which nothing was done.
    pub fn build<R: Wait>(
        rt: &R,
        alloc: Global,
        handles: u32,
        lots: u32,
        events: u32,
    ) -> Result<LoopFixture<J>, NoMemory>
        requires indices { handles + lots ≤ 4096 }
        requires events { events ≤ 64 }
        ensures { IfOk result (λ built. IsNew (record { handles = handles; lots = lots; events = events }) built.table built.home.seat built.seat) }
    {
        let pool = LotPool::build(rt, alloc, handles, lots)?;
        let Ok(built) = LoopTable::<J>::build(alloc, handles, lots, events) else {
            return Err(NoMemory);
        };
        let Built { table, home, seat } = built;
        Ok(LoopFixture {
            table,
            home,
            seat,
            lots: pool,
        })
    }

    /// Schedules a handle through the seat, and answers the flags that it found.
    #[inline(always)]
    pub fn schedule<R: Wait>(&mut self, rt: &R, bh: u32) -> Flags
        requires handle { bh < self.old.table.sizes.handles }
        ensures sizes { self.new.table.sizes ≡ self.old.table.sizes }
        ensures steps { Schedules bh ToCall result self.old.seat.known self.new.seat.known }
    {
        self.table.schedule(rt, &mut self.seat, bh)
    }

    /// The same, for a call that is no progress.
    pub fn schedule_idle<R: Wait>(&mut self, rt: &R, bh: u32) -> Flags
        requires handle { bh < self.old.table.sizes.handles }
        ensures sizes { self.new.table.sizes ≡ self.old.table.sizes }
        ensures steps { Schedules bh ToCallIdle result self.old.seat.known self.new.seat.known }
    {
        self.table.schedule_idle(rt, &mut self.seat, bh)
    }

    /// Cancels what a handle was scheduled for, through the seat, and answers the flags that it found.
    pub fn cancel(&mut self, bh: u32) -> Flags
        requires handle { bh < self.old.table.sizes.handles }
        ensures sizes { self.new.table.sizes ≡ self.old.table.sizes }
        ensures steps { Cancels bh result self.old.seat.known self.new.seat.known }
    {
        self.table.cancel(&mut self.seat, bh)
    }

    /// Deletes a handle through the seat, and answers the flags that it found.
    pub fn delete<R: Wait>(&mut self, rt: &R, bh: u32) -> Flags
        requires handle { bh < self.old.table.sizes.handles }
        ensures sizes { self.new.table.sizes ≡ self.old.table.sizes }
        ensures steps { Schedules bh ToDelete result self.old.seat.known self.new.seat.known }
    {
        self.table.delete(rt, &mut self.seat, bh)
    }

    /// Places a one-shot with this job through the seat and its pass. `NoRoom` hands the job back.
    pub fn once<R: Wait>(&mut self, rt: &R, job: J) -> Result<(), NoRoom<J>>
        ensures sizes { self.new.table.sizes ≡ self.old.table.sizes }
        ensures placed { MatchResult result (λ _. PlacesOnce (J.number_of job) self.old.lots.pass self.old.seat.known self.new.lots.pass self.new.seat.known) (λ refused. (refused.job ≡ job) × FindsNoRoom self.old.lots.pass self.old.seat.known self.new.lots.pass self.new.seat.known) }
    {
        let lots = &mut self.lots;
        self.table
            .once(rt, &lots.pool, &mut lots.pass, &mut self.seat, job)
    }

    /// Home polls: the runner is entered for all that is due.
    #[inline(always)]
    pub fn poll<R: Runner<J>, W: Wait>(&mut self, rt: &W, runner: &mut R) -> Polled
        requires can_run { R.can_run runner.old self.old.table.sizes }
        ensures can_run { R.can_run runner.new self.old.table.sizes }
        ensures sizes { self.new.table.sizes ≡ self.old.table.sizes }
        ensures polls { Polls R.does result runner.old self.old.home.seat.known runner.new self.new.home.seat.known }
    {
        let lots = &mut self.lots;
        self.table
            .poll(rt, &lots.pool, &mut lots.home, &mut self.home, runner)
    }
}
