//! A poll, after aio_bh_poll of QEMU's util/async.c: the home thread takes the list whole, and dequeues until nothing that it took
//! is left. What a callback schedules goes into the list behind its back, for the next poll. A lot is free again once its callback
//! has ended.
ghost use Rattle.std.specs.Prelude.{◌≡◌, ◌<◌, MatchResult};
ghost use Rattle.aio_model.specs.Loop.History.{ToCall, ToCallIdle, ToDelete};
ghost use Rattle.aio_model.specs.Loop.InFlight.{AtRest, Announced as announced};
ghost use Rattle.aio_bh.specs.Ready.{IsBetweenPolls};
ghost use Rattle.aio_core.specs.Calls.{IsSeatOf, IsReady};
ghost use Rattle.aio_bh.specs.Enqueuing.{PushesAndNotifies, MissesOnce, Schedules, enqueue_entries, AddsOnly};
ghost use Rattle.aio_bh.specs.Puts.{TriedToPut};
ghost use Rattle.aio_bh.specs.Polling.{Polls};
ghost use Rattle.aio_bh.specs.OneShots.{IsPoolFor, FindsNoRoom, PlacesOnce, ReturnsLots};
ghost use Rattle.lot_pool.specs.Pools.{IsPassOf, IsHomeOf};

use crate::enqueue::{push_and_notify, schedule_as, try_schedule_as};
use crate::frames::{OUTERMOST, frame};
use crate::once::{NoRoom, once_in};
use crate::polled::Polled;
use crate::put::Put;
use crate::runner::Runner;
use aio_core::{Announced, Home, Job, LoopTable, Seat};
use aio_model::{Flags, Kind};
use lot_pool::{LotPass, LotPool};
use std::sync::Wait;

/// What the home thread does with bottom halves.
pub trait BottomHalves<J: Job + Drop> {
    ghost use Rattle.aio_core.specs.Calls.{TableState};

    ghost table: { Self → TableState };

    /// Schedules a handle: its callback is called at the next poll. Answers the flags that it found. Any thread, with a seat
    /// of its own; it may try again as long as other threads push.
    fn schedule<R: Wait>(&self, rt: &R, seat: &mut Seat<J>, bh: u32) -> Flags
        requires seat { IsReady (table self.now) seat.old }
        requires handle { bh < (table self.now).sizes.handles }
        ensures seat { IsReady (table self.now) seat.new }
        ensures steps { Schedules bh ToCall result seat.old.known seat.new.known }
        ensures stands { AddsOnly (enqueue_entries bh ToCall seat.old.known.first result) seat.old.known seat.new.known };

    /// The same, for a call that is no progress. Scheduling it again in the same round doesn't take that back.
    fn schedule_idle<R: Wait>(&self, rt: &R, seat: &mut Seat<J>, bh: u32) -> Flags
        requires seat { IsReady (table self.now) seat.old }
        requires handle { bh < (table self.now).sizes.handles }
        ensures seat { IsReady (table self.now) seat.new }
        ensures steps { Schedules bh ToCallIdle result seat.old.known seat.new.known }
        ensures stands { AddsOnly (enqueue_entries bh ToCallIdle seat.old.known.first result) seat.old.known seat.new.known };

    /// Deletes a handle: its callback is never called again.
    fn delete<R: Wait>(&self, rt: &R, seat: &mut Seat<J>, bh: u32) -> Flags
        requires seat { IsReady (table self.now) seat.old }
        requires handle { bh < (table self.now).sizes.handles }
        ensures seat { IsReady (table self.now) seat.new }
        ensures steps { Schedules bh ToDelete result seat.old.known seat.new.known }
        ensures stands { AddsOnly (enqueue_entries bh ToDelete seat.old.known.first result) seat.old.known seat.new.known };

    /// Schedules a handle, and tries once to push it. It doesn't wait.
    fn try_schedule(&self, seat: &mut Seat<J>, bh: u32) -> Put
        requires seat { IsReady (table self.now) seat.old }
        requires handle { bh < (table self.now).sizes.handles }
        ensures seat { IsSeatOf (table self.now) seat.new }
        ensures put { TriedToPut bh ToCall result seat.old.known seat.new.known };

    /// One more try to push what this seat owes; Err gives the debt back. It doesn't wait.
    fn push_owed(&self, seat: &mut Seat<J>, owed: Announced) -> Result<(), Announced>
        requires seat { IsSeatOf (table self.now) seat.old }
        requires phase { seat.old.known.phase ≡ announced owed }
        ensures seat { IsSeatOf (table self.now) seat.new }
        ensures step { MatchResult result (λ _. PushesAndNotifies owed seat.old.known seat.new.known × (seat.new.known.phase ≡ AtRest)) (λ again. (again ≡ owed) × MissesOnce owed seat.old.known seat.new.known × (seat.new.known.phase ≡ announced again)) };

    /// Places a one-shot: its callback is called once, with this job, at the next poll. `NoRoom` hands the job back: each lot that
    /// was popped was taken, and then the pool was found empty. Any thread, with a seat and a pass of its own. It takes no memory.
    fn once<R: Wait>(
        &self,
        rt: &R,
        pool: &LotPool,
        pass: &mut LotPass,
        seat: &mut Seat<J>,
        job: J,
    ) -> Result<(), NoRoom<J>>
        requires pool { IsPoolFor (table self.now).sizes pool.now }
        requires pass { IsPassOf pool.now pass.old }
        requires seat { IsReady (table self.now) seat.old }
        ensures pass { IsPassOf pool.now pass.new }
        ensures seat { IsReady (table self.now) seat.new }
        ensures placed { MatchResult result (λ _. PlacesOnce (J.number_of job) pass.old seat.old.known pass.new seat.new.known) (λ refused. (refused.job ≡ job) × FindsNoRoom pass.old seat.old.known pass.new seat.new.known) };

    /// Calls back all that is due of what was scheduled before, one after another, the last one first, and dequeues the
    /// rest. A callback that answers `Nest` gets a poll of its own, which also goes on with what this one had left, and then it
    /// is entered again: four times at most, and to eight polls in one another. What a callback schedules is for the next poll
    /// that takes the list, a nested one among them. The lots of one-shots go back to the pool, or stay with the pass until
    /// the next poll where the pool was found full. It takes no memory. The home thread, outside any poll, with the pool's home
    /// pass.
    fn poll<R: Runner<J>, W: Wait>(
        &self,
        rt: &W,
        pool: &LotPool,
        pass: &mut LotPass,
        home: &mut Home<J>,
        runner: &mut R,
    ) -> Polled
        requires can_run { R.can_run runner.old (table self.now).sizes }
        requires pool { IsPoolFor (table self.now).sizes pool.now }
        requires pass { IsHomeOf pool.now pass.old }
        requires home { IsBetweenPolls (table self.now) home.old.seat }
        ensures can_run { R.can_run runner.new (table self.now).sizes }
        ensures pass { IsHomeOf pool.now pass.new }
        ensures seat { IsSeatOf (table self.now) home.new.seat }
        ensures polls { Polls R.does result runner.old home.old.seat.known runner.new home.new.seat.known }
        ensures returns { ReturnsLots pool.now home.old.seat.known home.new.seat.known pass.old pass.new };
}

impl<J: Job + Drop> BottomHalves<J> for LoopTable<J> {
    ghost table = { λ t. t };

    #[inline(always)]
    fn schedule<R: Wait>(&self, rt: &R, seat: &mut Seat<J>, bh: u32) -> Flags {
        schedule_as(rt, self, seat, bh, Kind::Sched)
    }

    fn schedule_idle<R: Wait>(&self, rt: &R, seat: &mut Seat<J>, bh: u32) -> Flags {
        schedule_as(rt, self, seat, bh, Kind::Idle)
    }

    fn delete<R: Wait>(&self, rt: &R, seat: &mut Seat<J>, bh: u32) -> Flags {
        schedule_as(rt, self, seat, bh, Kind::Del)
    }

    fn try_schedule(&self, seat: &mut Seat<J>, bh: u32) -> Put {
        try_schedule_as(self, seat, bh, Kind::Sched)
    }

    fn push_owed(&self, seat: &mut Seat<J>, owed: Announced) -> Result<(), Announced> {
        push_and_notify(self, seat, owed)
    }

    fn once<R: Wait>(
        &self,
        rt: &R,
        pool: &LotPool,
        pass: &mut LotPass,
        seat: &mut Seat<J>,
        job: J,
    ) -> Result<(), NoRoom<J>> {
        once_in(rt, self, pool, pass, seat, job)
    }

    #[inline(always)]
    fn poll<R: Runner<J>, W: Wait>(
        &self,
        rt: &W,
        pool: &LotPool,
        pass: &mut LotPass,
        home: &mut Home<J>,
        runner: &mut R,
    ) -> Polled {
        let mut polled = Polled::zero();
        pool.give_kept(rt, pass);
        frame(rt, self, pool, pass, home, runner, &mut polled, OUTERMOST);
        polled
    }
}
