//! The device, and its callbacks.
ghost use Rattle.std.specs.Prelude.{◌≡◌, ◌<◌, List, []};
ghost use Rattle.aio_model.specs.declared.timers.calls.TimerCall.{TimerCall};
ghost use Rattle.aio_loop.specs.Entering.{EachPasses, is_callees_on_timers, ChangesSide};

use crate::counts::Counts;
use aio_bh::{Call, Turn};
use aio_core::{LoopTable, Seat};
use aio_loop::{LoopRunner, Ready, Side, TimerId};
use std::sync::atomic::{AtomicU64, Ordering};

/// How often the timer ticks.
pub const TICKS: u64 = 5;

/// How far its ticks are apart, in nanoseconds.
pub const PERIOD: i64 = 1_000_000;

/// A device that serves what a guest puts into its queue.
#[derive(Drop)]
pub struct Device<'a> {
    /// How many requests the guest has put that weren't served yet.
    pub queue: &'a AtomicU64,
    pub timer: TimerId,
    /// When the timer is to tick next.
    pub due: i64,
    pub served: u64,
    pub counts: Counts,
}

/// Arms the timer, where it is to tick on.
fn rearm(side: &mut Side, timer: TimerId, due: i64, on: bool)
    requires timer { timer.number < side.old.timers.made }
    ensures made { side.new.timers.made ≡ side.old.timers.made }
    ensures changes { (calls : List TimerCall) × EachPasses is_callees_on_timers calls × ChangesSide [] calls side.old side.new }
{
    if on {
        side.timers.arm(timer, due);
    }
}

impl<'a> Device<'a> {
    /// Takes all requests that the guest has put.
    fn serve(&mut self)
        ensures counts { self.new.counts ≡ self.old.counts }
        ensures timer { self.new.timer ≡ self.old.timer }
    {
        let requests = self.queue.swap(0, Ordering::SeqCst);
        self.served = self.served.saturating_add(requests);
    }
}

impl<'a> LoopRunner<()> for Device<'a> {
    ghost use Rattle.std.specs.Prelude.{◌<◌};
    ghost use Rattle.device_loop.specs.Devices.{DeviceWorks};

    ghost can_run = { λ device sizes made. device.timer.number < made };

    ghost does = { λ before entered after. DeviceWorks before.counts entered after.counts };

    /// The doorbell was rung.
    fn bottom(
        &mut self,
        _table: &LoopTable<()>,
        _seat: &mut Seat<()>,
        _side: &mut Side,
        _call: &mut Call<()>,
    ) -> Turn {
        self.counts.ring();
        self.serve();
        Turn::Done
    }

    /// The guest asks to stop.
    fn ready(
        &mut self,
        _table: &LoopTable<()>,
        _seat: &mut Seat<()>,
        _side: &mut Side,
        _ready: Ready,
    ) {
        self.counts.stop();
    }

    /// The timer ticks.
    fn expired(
        &mut self,
        _table: &LoopTable<()>,
        _seat: &mut Seat<()>,
        side: &mut Side,
        _id: TimerId,
    ) {
        self.counts.tick();
        rearm(side, self.timer, self.due, self.counts.ticks < TICKS);
        self.due = self.due.saturating_add(PERIOD);
    }
}
