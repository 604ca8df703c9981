//! The turn.
ghost use Rattle.std.specs.Prelude.{◌≡◌, ◌||◌, IsFalse};
ghost use Rattle.aio_model.specs.Loop.Legal.{IsLegal};
ghost use Rattle.aio_bh.specs.OneShots.{ServesHome};
ghost use Rattle.aio_loop.specs.Homes.{IsHomeFree};
ghost use Rattle.aio_loop.specs.Walks.{loop_far};
ghost use Rattle.aio_loop.specs.Turns.{Awakes, AwakesAndPolls, Turns};

use crate::blocking::may_sleep;
use crate::bottoms::poll_with;
use crate::expiring::run_expired;
use crate::loop_runner::LoopRunner;
use crate::side::Side;
use crate::turned::Turned;
use crate::walking::walk;
use aio_bh::{LotPass, LotPool, Polled};
use aio_core::{Home, Job, LoopTable};
use aio_notify::Sleeping;
use aio_words::Clock;
use std::sync::Wait;

fn awake<J: Job, W: Wait, C: Clock>(
    rt: &W,
    table: &LoopTable<J>,
    home: &mut Home<J>,
    side: &Side,
    clock: &mut C,
    block: bool,
) -> bool
    requires home { IsHomeFree table.now home.old.seat }
    ensures home { IsHomeFree table.now home.new.seat }
    ensures awakes { Awakes block table.now.sizes.events side.now result (C.time clock.old) (C.time clock.new) home.old.seat.known home.new.seat.known }
{
    if !block {
        return false;
    }
    may_sleep(rt, table, home, side, clock)
}

fn any(polled: bool, ready: bool, expired: bool) -> bool
    ensures { result ≡ (polled || ready || expired) }
{
    polled || ready || expired
}

/// What is before the walk. Whether home slept, and what the poll tells.
fn awake_and_poll<J: Job + Drop, R: LoopRunner<J>, W: Wait, C: Clock>(
    rt: &W,
    table: &LoopTable<J>,
    pool: &LotPool,
    pass: &mut LotPass,
    home: &mut Home<J>,
    side: &mut Side,
    runner: &mut R,
    clock: &mut C,
    block: bool,
) -> (bool, Polled)
    requires can_run { R.can_run runner.old table.now.sizes side.old.timers.made }
    requires lots { ServesHome table.now.sizes pool.now pass.old }
    requires home { IsHomeFree table.now home.old.seat }
    ensures can_run { R.can_run runner.new table.now.sizes side.new.timers.made }
    ensures lots { ServesHome table.now.sizes pool.now pass.new }
    ensures home { IsHomeFree table.now home.new.seat }
    ensures legal { IsLegal table.now.sizes home.new.seat.known.seen }
    ensures walking { side.new.handlers.walking ≡ side.old.handlers.walking }
    ensures polls { AwakesAndPolls R.does pool.now block table.now.sizes.events result.0 result.1 (C.time clock.old) (C.time clock.new) pass.old pass.new (loop_far home.old.seat.known side.old runner.old) (loop_far home.new.seat.known side.new runner.new) }
{
    let slept = awake(rt, table, home, side, clock, block);
    table.accept(home);
    let polled = poll_with(rt, table, pool, pass, home, side, runner);
    (slept, polled)
}

/// A turn over the parts of a loop.
fn turn_of<J: Job + Drop, R: LoopRunner<J>, W: Wait, C: Clock>(
    rt: &W,
    table: &LoopTable<J>,
    pool: &LotPool,
    pass: &mut LotPass,
    home: &mut Home<J>,
    side: &mut Side,
    runner: &mut R,
    clock: &mut C,
    block: bool,
) -> Turned
    requires can_run { R.can_run runner.old table.now.sizes side.old.timers.made }
    requires lots { ServesHome table.now.sizes pool.now pass.old }
    requires home { IsHomeFree table.now home.old.seat }
    requires walking { IsFalse side.old.handlers.walking }
    ensures can_run { R.can_run runner.new table.now.sizes side.new.timers.made }
    ensures lots { ServesHome table.now.sizes pool.now pass.new }
    ensures home { IsHomeFree table.now home.new.seat }
    ensures legal { IsLegal table.now.sizes home.new.seat.known.seen }
    ensures walking { IsFalse side.new.handlers.walking }
    ensures turns { Turns R.does pool.now block table.now.sizes.events result (C.time clock.old) (C.time clock.new) pass.old pass.new (loop_far home.old.seat.known side.old runner.old) (loop_far home.new.seat.known side.new runner.new) }
{
    let (slept, polled) = awake_and_poll(rt, table, pool, pass, home, side, runner, clock, block);
    let ready = walk(rt, table, home, side, runner);
    let expired = run_expired(rt, table, home, side, runner, clock);
    Turned {
        progress: any(polled.progress, ready, expired),
        slept,
    }
}

/// A loop, as its home thread has it: whoever has it is the home thread.
#[derive(Drop)]
pub struct AioLoop<'a, J: Job> {
    pub table: &'a LoopTable<J>,
    pub pool: &'a LotPool,
    pub lot_pass: LotPass,
    pub home: Home<J>,
    pub side: Side,
}

impl<'a, J: Job + Drop> AioLoop<'a, J> {
    /// One turn. Where it is to block, home sleeps unless something keeps it awake: until it is notified, or the first timer expires.
    /// Then it accepts, polls, clears the events that are found set and have a handler, one by one, each just before its handler is
    /// called, and calls the timers that have expired at one reading of the clock. What a callback schedules is for the next turn.
    pub fn turn<R: LoopRunner<J>, W: Wait, C: Clock>(
        &mut self,
        rt: &W,
        runner: &mut R,
        clock: &mut C,
        block: bool,
    ) -> Turned
        requires can_run { R.can_run runner.old self.old.table.now.sizes self.old.side.timers.made }
        requires lots { ServesHome self.old.table.now.sizes self.old.pool.now self.old.lot_pass }
        requires home { IsHomeFree self.old.table.now self.old.home.seat }
        requires walking { IsFalse self.old.side.handlers.walking }
        ensures same { (self.new.table ≡ self.old.table) × (self.new.pool ≡ self.old.pool) }
        ensures can_run { R.can_run runner.new self.old.table.now.sizes self.new.side.timers.made }
        ensures lots { ServesHome self.old.table.now.sizes self.old.pool.now self.new.lot_pass }
        ensures home { IsHomeFree self.old.table.now self.new.home.seat }
        ensures legal { IsLegal self.old.table.now.sizes self.new.home.seat.known.seen }
        ensures walking { IsFalse self.new.side.handlers.walking }
        ensures turns { Turns R.does self.old.pool.now block self.old.table.now.sizes.events result (C.time clock.old) (C.time clock.new) self.old.lot_pass self.new.lot_pass (loop_far self.old.home.seat.known self.old.side runner.old) (loop_far self.new.home.seat.known self.new.side runner.new) }
    {
        turn_of(
            rt,
            self.table,
            self.pool,
            &mut self.lot_pass,
            &mut self.home,
            &mut self.side,
            runner,
            clock,
            block,
        )
    }
}
