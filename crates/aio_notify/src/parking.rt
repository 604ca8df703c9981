//! A committed home waits for the notifier.
ghost use Rattle.std.specs.Prelude.{◌≡◌, ◌≤◌};
ghost use Rattle.aio_core.specs.Calls.{IsSeatOf};
ghost use Rattle.aio_notify.specs.Waiting.{FindsNotifier, WaitsUntil};
ghost use Rattle.aio_notify.specs.Settling.{SameButDone};

use aio_core::{Home, Job, LoopTable};
use aio_words::Clock;
use std::sync::Wait;

/// How long home pauses at most between two looks, in nanoseconds.
const PAUSE: u64 = 1_000_000;

/// Sleeps on the notifier, and looks each time that it wakes.
pub fn wait_for_notifier<J: Job, R: Wait>(rt: &R, table: &LoopTable<J>, home: &mut Home<J>)
    requires seat { IsSeatOf table.now home.old.seat }
    ensures seat { IsSeatOf table.now home.new.seat }
    ensures found { FindsNotifier home.old.seat.known home.new.seat.known }
    ensures same { SameButDone home.old.seat.known home.new.seat.known }
{
    for _ in rt.forever() {
        if table.load_notifier(home) {
            return;
        }
        table.park(rt, home);
    }
    unreachable!()
}

/// Looks at the notifier, and pauses between two looks, until so much time has passed.
pub fn wait_until<J: Job, R: Wait, C: Clock>(
    rt: &R,
    table: &LoopTable<J>,
    home: &mut Home<J>,
    left: u64,
    clock: &mut C,
)
    requires seat { IsSeatOf table.now home.old.seat }
    ensures seat { IsSeatOf table.now home.new.seat }
    ensures same { SameButDone home.old.seat.known home.new.seat.known }
    ensures waits { WaitsUntil left (C.time clock.old) (C.time clock.new) home.old.seat.known home.new.seat.known }
{
    let start = clock.now();
    for _ in rt.forever() {
        if table.load_notifier(home) {
            return;
        }
        let passed = clock.now() - start;
        if passed >= left {
            return;
        }
        clock.pause((left - passed).min(PAUSE));
    }
    unreachable!()
}
