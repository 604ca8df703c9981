//! The handlers of the events that are set.
ghost use Rattle.std.specs.Prelude.{◌≡◌, MatchBool, IsTrue, IsFalse, None};
ghost use Rattle.aio_model.specs.Loop.Legal.{IsLegal};
ghost use Rattle.aio_handlers.specs.Answers.{first_ready};
ghost use Rattle.aio_handlers.specs.declared.answers.Ready.{Ready as Given};
ghost use Rattle.aio_loop.specs.Homes.{IsHomeFree};
ghost use Rattle.aio_loop.specs.Walks.{loop_far, BeginsWalk, ClearsFirst, EntersReady, EntersAllReady, Walks};

use crate::loop_runner::LoopRunner;
use crate::side::Side;
use aio_core::{Home, Job, LoopTable};
use aio_notify::LoopEvents;
use std::sync::Wait;

/// Looks which of the events that have a handler are set, and begins a walk over their handlers.
fn begin_walk<J: Job>(table: &LoopTable<J>, home: &mut Home<J>, side: &mut Side)
    requires home { IsHomeFree table.now home.old.seat }
    requires legal { IsLegal table.now.sizes home.old.seat.known.seen }
    requires walking { IsFalse side.old.handlers.walking }
    ensures home { IsHomeFree table.now home.new.seat }
    ensures legal { IsLegal table.now.sizes home.new.seat.known.seen }
    ensures walking { IsTrue side.new.handlers.walking }
    ensures begins { BeginsWalk table.now.sizes.events home.old.seat.known side.old home.new.seat.known side.new }
{
    let found = table.found_set(home, side.handlers.watch());
    side.handlers.walk_begin(found);
}

/// Clears an event of the table.
fn clear_first<J: Job>(table: &LoopTable<J>, home: &mut Home<J>, event: u32)
    requires home { IsHomeFree table.now home.old.seat }
    requires legal { IsLegal table.now.sizes home.old.seat.known.seen }
    ensures home { IsHomeFree table.now home.new.seat }
    ensures legal { IsLegal table.now.sizes home.new.seat.known.seen }
    ensures clears { ClearsFirst table.now.sizes.events event home.old.seat.known home.new.seat.known }
{
    if event < table.events() {
        table.clear_event(home, event);
    }
}

/// Enters the runner for the next handler of the walk. False where there is none.
fn enter_ready<J: Job, R: LoopRunner<J>>(
    table: &LoopTable<J>,
    home: &mut Home<J>,
    side: &mut Side,
    runner: &mut R,
) -> bool
    requires can_run { R.can_run runner.old table.now.sizes side.old.timers.made }
    requires home { IsHomeFree table.now home.old.seat }
    requires legal { IsLegal table.now.sizes home.old.seat.known.seen }
    requires walking { IsTrue side.old.handlers.walking }
    ensures can_run { R.can_run runner.new table.now.sizes side.new.timers.made }
    ensures home { IsHomeFree table.now home.new.seat }
    ensures legal { IsLegal table.now.sizes home.new.seat.known.seen }
    ensures walking { IsTrue side.new.handlers.walking }
    ensures enters { MatchBool result ((ready : Given) × EntersReady R.does table.now.sizes.events ready (loop_far home.old.seat.known side.old runner.old) (loop_far home.new.seat.known side.new runner.new)) ((first_ready side.old.handlers.waiting ≡ None) × (loop_far home.new.seat.known side.new runner.new ≡ loop_far home.old.seat.known side.old runner.old)) }
{
    let Some(ready) = side.handlers.next_ready() else {
        return false;
    };
    clear_first(table, home, ready.event);
    runner.ready(table, &mut home.seat, side, ready);
    true
}

/// Enters the runner for each handler of the walk. Whether there were any.
fn enter_each_ready<J: Job, R: LoopRunner<J>, W: Wait>(
    rt: &W,
    table: &LoopTable<J>,
    home: &mut Home<J>,
    side: &mut Side,
    runner: &mut R,
) -> bool
    requires can_run { R.can_run runner.old table.now.sizes side.old.timers.made }
    requires home { IsHomeFree table.now home.old.seat }
    requires legal { IsLegal table.now.sizes home.old.seat.known.seen }
    requires walking { IsTrue side.old.handlers.walking }
    ensures can_run { R.can_run runner.new table.now.sizes side.new.timers.made }
    ensures home { IsHomeFree table.now home.new.seat }
    ensures legal { IsLegal table.now.sizes home.new.seat.known.seen }
    ensures walking { IsTrue side.new.handlers.walking }
    ensures enters { EntersAllReady R.does table.now.sizes.events result (loop_far home.old.seat.known side.old runner.old) (loop_far home.new.seat.known side.new runner.new) }
{
    let mut called = false;
    for _ in rt.forever() {
        if !enter_ready(table, home, side, runner) {
            return called;
        }
        called = true;
    }
    unreachable!()
}

/// The walk over the handlers of the events that are set. Whether any was called.
pub fn walk<J: Job, R: LoopRunner<J>, W: Wait>(
    rt: &W,
    table: &LoopTable<J>,
    home: &mut Home<J>,
    side: &mut Side,
    runner: &mut R,
) -> bool
    requires can_run { R.can_run runner.old table.now.sizes side.old.timers.made }
    requires home { IsHomeFree table.now home.old.seat }
    requires legal { IsLegal table.now.sizes home.old.seat.known.seen }
    requires walking { IsFalse side.old.handlers.walking }
    ensures can_run { R.can_run runner.new table.now.sizes side.new.timers.made }
    ensures home { IsHomeFree table.now home.new.seat }
    ensures legal { IsLegal table.now.sizes home.new.seat.known.seen }
    ensures walking { IsFalse side.new.handlers.walking }
    ensures walks { Walks R.does table.now.sizes.events result (loop_far home.old.seat.known side.old runner.old) (loop_far home.new.seat.known side.new runner.new) }
{
    begin_walk(table, home, side);
    let called = enter_each_ready(rt, table, home, side, runner);
    side.handlers.walk_end();
    called
}
