//! What a loop is made of.
ghost use Rattle.std.specs.Prelude.{◌≡◌, ◌<◌, false, IfOk};
ghost use Rattle.aio_model.specs.Loop.InFlight.{AtRest};
ghost use Rattle.aio_bh.specs.OneShots.{ServesHome};
ghost use Rattle.aio_loop.specs.Homes.{IsHomeFree};
ghost use Rattle.aio_core.specs.Calls.{IsReady};

use aio_bh::{LotBuilt, LotPool};
use aio_core::{Built, Home, LoopTable, Seat};
use aio_loop::{Handlers, Side, TimerId, Timers};
use std::alloc::Global;
use std::sync::Wait;
use std::test::Fail;

/// The parts of a loop of one handle and two events, with room for two handlers and a timer that isn't armed.
#[derive(Drop)]
pub struct Parts {
    pub table: LoopTable<u64>,
    pub home: Home<u64>,
    pub seat: Seat<u64>,
    pub lots: LotBuilt,
    pub side: Side,
    pub timer: TimerId,
    ghost sizes: { (table.sizes.handles ≡ 1) × (table.sizes.events ≡ 2) },
    ghost serves: { ServesHome table.sizes lots.pool lots.home },
    ghost home_free: { IsHomeFree table home.seat },
    ghost ready: { IsReady table seat },
    ghost walking: { side.handlers.walking ≡ false },
    ghost timer_of: { timer.number < side.timers.made },
}

/// No handler was added, and the timer is the one that was made.
fn side(alloc: Global) -> Result<(Side, TimerId), Fail>
    ensures walking { IfOk result (λ made. made.0.handlers.walking ≡ false) }
    ensures timer { IfOk result (λ made. made.1.number < made.0.timers.made) }
{
    let (Ok(handlers), Ok(mut timers)) = (Handlers::build(alloc, 2), Timers::build(alloc, 1)) else {
        return Err(Fail::from("no memory"));
    };
    let Some(timer) = timers.add() else {
        return Err(Fail::from("no room"));
    };
    Ok((Side { handlers, timers }, timer))
}

impl Parts {
    pub fn build<R: Wait>(rt: &R, alloc: Global) -> Result<Parts, Fail> {
        let Ok(lots) = LotPool::build(rt, alloc, 1, 0) else {
            return Err(Fail::from("no memory"));
        };
        let (side, timer) = side(alloc)?;
        match LoopTable::<u64>::build(alloc, 1, 0, 2) {
            Ok(Built { table, home, seat }) => Ok(Parts {
                table,
                home,
                seat,
                lots,
                side,
                timer,
            }),
            Err(_) => Err(Fail::from("no memory")),
        }
    }
}
