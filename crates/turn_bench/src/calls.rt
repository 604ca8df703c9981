//! A runner that counts what it is called for.
ghost use Rattle.std.specs.Prelude.{◌≡◌, ◌<◌, List, []};
ghost use Rattle.aio_model.specs.declared.timers.calls.TimerCall.{TimerCall};
ghost use Rattle.aio_loop.specs.Entering.{EachPasses, is_callees_on_timers, ChangesSide};

use aio_bh::{Call, Turn};
use aio_core::{LoopTable, Seat};
use aio_loop::{LoopRunner, Ready, Side, TimerId};

/// How many callbacks were called. The timer arms itself for now each time that it expires.
#[derive(Drop)]
pub struct Calls {
    pub timer: TimerId,
    pub bottoms: u64,
    pub handlers: u64,
    pub timers: u64,
}

/// Arms a timer for now.
#[inline(always)]
fn arm_for_now(side: &mut Side, timer: TimerId)
    requires timer { timer.number < side.old.timers.made }
    ensures made { side.new.timers.made ≡ side.old.timers.made }
    ensures changes { (calls : List TimerCall) × EachPasses is_callees_on_timers calls × ChangesSide [] calls side.old side.new }
{
    side.timers.arm(timer, 0);
}

impl LoopRunner<u64> for Calls {
    ghost use Rattle.std.specs.Prelude.{◌≡◌, ◌<◌, true};

    ghost can_run = { λ calls _ made. calls.timer.number < made };

    ghost does = { λ _ _ _. true ≡ true };

    fn bottom(
        &mut self,
        _table: &LoopTable<u64>,
        _seat: &mut Seat<u64>,
        _side: &mut Side,
        _call: &mut Call<u64>,
    ) -> Turn {
        self.bottoms = self.bottoms.wrapping_add(1);
        Turn::Done
    }

    fn ready(
        &mut self,
        _table: &LoopTable<u64>,
        _seat: &mut Seat<u64>,
        _side: &mut Side,
        _ready: Ready,
    ) {
        self.handlers = self.handlers.wrapping_add(1);
    }

    fn expired(
        &mut self,
        _table: &LoopTable<u64>,
        _seat: &mut Seat<u64>,
        side: &mut Side,
        _id: TimerId,
    ) {
        self.timers = self.timers.wrapping_add(1);
        arm_for_now(side, self.timer);
    }
}
