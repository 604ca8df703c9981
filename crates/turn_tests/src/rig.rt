//! A loop with its runner and its clock.
ghost use Rattle.std.specs.Prelude.{◌≡◌, ◌<◌, false};
ghost use Rattle.aio_bh.specs.OneShots.{ServesHome};
ghost use Rattle.aio_loop.specs.Homes.{IsHomeFree};

use crate::notes::Entry;
use crate::responder::Responder;
use aio_loop::{AioLoop, Turned};
use aio_words::StepClock;
use std::sync::Wait;

/// A loop that may turn, with a responder that can run on it.
#[derive(Drop)]
pub struct Rig<'a, 'b, R: Wait> {
    pub home_loop: AioLoop<'a, u64>,
    pub responder: Responder<'b, R>,
    pub clock: StepClock,
    ghost handle: { 0 < home_loop.table.now.sizes.handles },
    ghost timer: { responder.timer.number < home_loop.side.timers.made },
    ghost serves: { ServesHome home_loop.table.now.sizes home_loop.pool.now home_loop.lot_pass },
    ghost home_free: { IsHomeFree home_loop.table.now home_loop.home.seat },
    ghost walking: { home_loop.side.handlers.walking ≡ false },
}

impl<'a, 'b, R: Wait> Rig<'a, 'b, R> {
    pub fn turn(&mut self, block: bool) -> Turned {
        let rt = self.responder.rt;
        self.home_loop
            .turn(rt, &mut self.responder, &mut self.clock, block)
    }

    /// Whether there was room for the handler, and its event had none.
    pub fn add_handler(&mut self, event: u32, tag: u64) -> bool
        requires { event < 64 }
    {
        self.home_loop.side.handlers.add(event, tag).is_ok()
    }

    /// What the runner was entered for.
    pub fn entries(&self) -> [Entry; 4] {
        self.responder.notes.entries
    }
}
