//! A runner that responds to its first entries.
ghost use Rattle.std.specs.Prelude.{◌≡◌, ◌<◌, List, []};
ghost use Rattle.aio_model.specs.Loop.History.{History};
ghost use Rattle.aio_model.specs.Loop.Legal.{IsLegal};
ghost use Rattle.aio_model.specs.declared.handlers.calls.HandlerCall.{HandlerCall};
ghost use Rattle.aio_model.specs.declared.timers.calls.TimerCall.{TimerCall};
ghost use Rattle.aio_bh.specs.Running.{SeatComesBack};
ghost use Rattle.aio_loop.specs.Entering.{EachPasses, is_callees_on_handlers, is_callees_on_timers, ChangesSide};
ghost use Rattle.aio_core.specs.Calls.{IsReady};

use crate::notes::{Entry, Notes};
use aio_bh::{BottomHalves, Call, Turn};
use aio_core::{LoopTable, Seat};
use aio_loop::{HandlerId, LoopRunner, Ready, Side, TimerId};
use std::sync::Wait;

/// A runner that notes what it is entered for, and responds once.
#[derive(Drop)]
pub struct Responder<'a, R: Wait> {
    pub rt: &'a R,
    pub notes: Notes,
    /// The handler that the first handler removes.
    pub removes: Option<HandlerId>,
    /// Whether the next handler schedules handle 0.
    pub schedules: bool,
    pub timer: TimerId,
    /// For when the next timer that expires arms this one.
    pub arms_for: Option<i64>,
}

impl<'a, R: Wait> Responder<'a, R> {
    /// A runner that doesn't respond.
    pub fn idle(rt: &'a R, timer: TimerId) -> Responder<'a, R>
        ensures { result.timer ≡ timer }
    {
        Responder {
            rt,
            notes: Notes::none(),
            removes: None,
            schedules: false,
            timer,
            arms_for: None,
        }
    }
}

fn remove(side: &mut Side, which: Option<HandlerId>)
    ensures timers { side.new.timers ≡ side.old.timers }
    ensures changes { (on : List HandlerCall) × EachPasses is_callees_on_handlers on × ChangesSide on [] side.old side.new }
{
    if let Some(id) = which {
        side.handlers.remove(id);
    }
}

fn schedule<R: Wait>(rt: &R, table: &LoopTable<u64>, seat: &mut Seat<u64>, now: bool)
    requires seat { IsReady table.now seat.old }
    requires legal { IsLegal table.now.sizes seat.old.known.seen }
    requires handle { 0 < table.now.sizes.handles }
    ensures seat { IsReady table.now seat.new }
    ensures made { (made : History) × SeatComesBack made seat.old.known seat.new.known }
{
    if now {
        table.schedule(rt, seat, 0);
    }
}

fn arm(side: &mut Side, timer: TimerId, expire: Option<i64>)
    requires timer { timer.number < side.old.timers.made }
    ensures made { side.new.timers.made ≡ side.old.timers.made }
    ensures changes { (on : List TimerCall) × EachPasses is_callees_on_timers on × ChangesSide [] on side.old side.new }
{
    if let Some(expire) = expire {
        side.timers.arm(timer, expire);
    }
}

impl<'a, R: Wait> LoopRunner<u64> for Responder<'a, R> {
    ghost use Rattle.std.specs.Prelude.{◌≡◌, ◌<◌, true};

    ghost can_run = { λ me sizes made. (0 < sizes.handles) × (me.timer.number < made) };

    ghost does = { λ _ _ _. true ≡ true };

    fn bottom(
        &mut self,
        _table: &LoopTable<u64>,
        _seat: &mut Seat<u64>,
        _side: &mut Side,
        call: &mut Call<u64>,
    ) -> Turn {
        self.notes.note(Entry::Bottom(call.bh));
        Turn::Done
    }

    fn ready(
        &mut self,
        table: &LoopTable<u64>,
        seat: &mut Seat<u64>,
        side: &mut Side,
        ready: Ready,
    ) {
        self.notes.note(Entry::Handler(ready.tag));
        remove(side, self.removes.take());
        let schedules = self.schedules;
        self.schedules = false;
        schedule(self.rt, table, seat, schedules);
    }

    fn expired(
        &mut self,
        _table: &LoopTable<u64>,
        _seat: &mut Seat<u64>,
        side: &mut Side,
        id: TimerId,
    ) {
        self.notes.note(Entry::Timer(id.number));
        arm(side, self.timer, self.arms_for.take());
    }
}
