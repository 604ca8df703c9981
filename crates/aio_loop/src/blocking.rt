//! Whether home may sleep, and for how long.
ghost use Rattle.std.specs.Prelude.{◌≡◌, ◌≤◌, MatchBool, false};
ghost use Rattle.aio_core.specs.Scans.{SameButSleep};
ghost use Rattle.aio_loop.specs.Homes.{IsHomeFree};
ghost use Rattle.aio_loop.specs.Blocking.{MaySleep};

use crate::side::Side;
use aio_core::{Home, Job, LoopTable};
use aio_model::Commit;
use aio_notify::Sleeping;
use aio_words::Clock;
use std::sync::Wait;

/// Home sleeps where nothing keeps it awake, until it is notified or the first timer expires. Whether it slept.
pub fn may_sleep<J: Job, W: Wait, C: Clock>(
    rt: &W,
    table: &LoopTable<J>,
    home: &mut Home<J>,
    side: &Side,
    clock: &mut C,
) -> bool
    requires home { IsHomeFree table.now home.old.seat }
    ensures home { IsHomeFree table.now home.new.seat }
    ensures sleeps { MaySleep table.now.sizes.events side.now result (C.time clock.old) (C.time clock.new) home.old.seat.known home.new.seat.known }
    ensures same { SameButSleep home.old.seat.known home.new.seat.known }
{
    let watch = side.handlers.watch();
    let first = side.timers.first();
    let now = clock.now();
    match table.commit(home, watch, first, now) {
        Commit::Sleep(left) => {
            table.wait(rt, home, left, clock);
            table.disarm(home);
            true
        }
        Commit::Awake(_) => false,
    }
}
