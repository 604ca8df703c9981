//! The timers that have expired.
ghost use Rattle.std.specs.Prelude.{◌≡◌, MatchBool, IsFalse, List};
ghost use Rattle.aio_model.specs.Loop.Legal.{IsLegal};
ghost use Rattle.aio_model.specs.declared.timers.calls.TimerCall.{TimerCall};
ghost use Rattle.aio_model.specs.Timers.Calls.{is_marked, IsNone};
ghost use Rattle.aio_timers.specs.StandsFor.{StandsFor};
ghost use Rattle.aio_timers.specs.declared.timers.TimerId.{TimerId as Given};
ghost use Rattle.aio_loop.specs.Homes.{IsHomeFree};
ghost use Rattle.aio_loop.specs.Walks.{loop_far};
ghost use Rattle.aio_loop.specs.Expiring.{EntersExpired, EntersAllExpired, RunsExpired};

use crate::loop_runner::LoopRunner;
use crate::side::Side;
use aio_core::{Home, Job, LoopTable};
use aio_words::Clock;
use std::sync::Wait;

/// Enters the runner for the next timer of the run. False where there is none.
fn enter_expired<J: Job, R: LoopRunner<J>>(
    table: &LoopTable<J>,
    home: &mut Home<J>,
    side: &mut Side,
    runner: &mut R,
) -> bool
    requires can_run { R.can_run runner.old table.now.sizes side.old.timers.made }
    requires home { IsHomeFree table.now home.old.seat }
    requires legal { IsLegal table.now.sizes home.old.seat.known.seen }
    requires walking { IsFalse side.old.handlers.walking }
    ensures can_run { R.can_run runner.new table.now.sizes side.new.timers.made }
    ensures home { IsHomeFree table.now home.new.seat }
    ensures legal { IsLegal table.now.sizes home.new.seat.known.seen }
    ensures walking { IsFalse side.new.handlers.walking }
    ensures enters { MatchBool result ((id : Given) × EntersExpired R.does id (loop_far home.old.seat.known side.old runner.old) (loop_far home.new.seat.known side.new runner.new)) (((calls : List TimerCall) → StandsFor side.old.timers calls → IsNone is_marked calls) × (loop_far home.new.seat.known side.new runner.new ≡ loop_far home.old.seat.known side.old runner.old)) }
{
    let Some(id) = side.timers.run_next() else {
        return false;
    };
    runner.expired(table, &mut home.seat, side, id);
    true
}

/// Enters the runner for each timer of the run. Whether there were any.
fn enter_each_expired<J: Job, R: LoopRunner<J>, W: Wait>(
    rt: &W,
    table: &LoopTable<J>,
    home: &mut Home<J>,
    side: &mut Side,
    runner: &mut R,
) -> bool
    requires can_run { R.can_run runner.old table.now.sizes side.old.timers.made }
    requires home { IsHomeFree table.now home.old.seat }
    requires legal { IsLegal table.now.sizes home.old.seat.known.seen }
    requires walking { IsFalse side.old.handlers.walking }
    ensures can_run { R.can_run runner.new table.now.sizes side.new.timers.made }
    ensures home { IsHomeFree table.now home.new.seat }
    ensures legal { IsLegal table.now.sizes home.new.seat.known.seen }
    ensures walking { IsFalse side.new.handlers.walking }
    ensures enters { EntersAllExpired R.does result (loop_far home.old.seat.known side.old runner.old) (loop_far home.new.seat.known side.new runner.new) }
{
    let mut called = false;
    for _ in rt.forever() {
        if !enter_expired(table, home, side, runner) {
            return called;
        }
        called = true;
    }
    unreachable!()
}

/// The run of the timers that have expired at one reading of the clock. Whether any was called.
pub fn run_expired<J: Job, R: LoopRunner<J>, W: Wait, C: Clock>(
    rt: &W,
    table: &LoopTable<J>,
    home: &mut Home<J>,
    side: &mut Side,
    runner: &mut R,
    clock: &mut C,
) -> bool
    requires can_run { R.can_run runner.old table.now.sizes side.old.timers.made }
    requires home { IsHomeFree table.now home.old.seat }
    requires legal { IsLegal table.now.sizes home.old.seat.known.seen }
    requires walking { IsFalse side.old.handlers.walking }
    ensures can_run { R.can_run runner.new table.now.sizes side.new.timers.made }
    ensures home { IsHomeFree table.now home.new.seat }
    ensures legal { IsLegal table.now.sizes home.new.seat.known.seen }
    ensures walking { IsFalse side.new.handlers.walking }
    ensures runs { RunsExpired R.does result (C.time clock.old) (C.time clock.new) (loop_far home.old.seat.known side.old runner.old) (loop_far home.new.seat.known side.new runner.new) }
{
    let now = clock.now();
    side.timers.run_begin(now);
    enter_each_expired(rt, table, home, side, runner)
}
