//! The loop whose turns are measured.
ghost use Rattle.std.specs.Prelude.{◌≡◌, ◌<◌, false};
ghost use Rattle.aio_bh.specs.OneShots.{ServesHome};
ghost use Rattle.aio_loop.specs.Homes.{IsHomeFree};
ghost use Rattle.aio_core.specs.Calls.{IsReady};

use crate::calls::Calls;
use aio_bh::BottomHalves;
use aio_core::Seat;
use aio_loop::AioLoop;
use aio_notify::LoopEvents;
use aio_words::StepClock;
use std::sync::Wait;

/// A loop of one handle, one event that has a handler, and one timer.
#[derive(Drop)]
pub struct Measured<'a> {
    pub home_loop: AioLoop<'a, u64>,
    pub seat: Seat<u64>,
    pub calls: Calls,
    pub clock: StepClock,
    ghost sizes: { (home_loop.table.now.sizes.handles ≡ 1) × (home_loop.table.now.sizes.events ≡ 1) },
    ghost ready: { IsReady home_loop.table.now seat },
    ghost timer: { calls.timer.number < home_loop.side.timers.made },
    ghost serves: { ServesHome home_loop.table.now.sizes home_loop.pool.now home_loop.lot_pass },
    ghost home_free: { IsHomeFree home_loop.table.now home_loop.home.seat },
    ghost walking: { home_loop.side.handlers.walking ≡ false },
}

impl<'a> Measured<'a> {
    /// A turn that doesn't block.
    #[inline(always)]
    pub fn turn<R: Wait>(&mut self, rt: &R) {
        self.home_loop
            .turn(rt, &mut self.calls, &mut self.clock, false);
    }

    /// Schedules the handle.
    #[inline(always)]
    pub fn schedule<R: Wait>(&mut self, rt: &R) {
        self.home_loop.table.schedule(rt, &mut self.seat, 0);
    }

    /// Sets the event.
    #[inline(always)]
    pub fn set_event(&mut self) {
        self.home_loop.table.set_event(&mut self.seat, 0);
    }
}
