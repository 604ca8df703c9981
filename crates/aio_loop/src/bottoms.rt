//! A poll with a loop's runner.
ghost use Rattle.std.specs.Prelude.{◌≡◌};
ghost use Rattle.aio_model.specs.Loop.Legal.{IsLegal};
ghost use Rattle.aio_bh.specs.OneShots.{ServesHome, ReturnsLots};
ghost use Rattle.aio_bh.specs.Polling.{Polls};
ghost use Rattle.aio_loop.specs.Homes.{IsHomeFree};
ghost use Rattle.aio_loop.specs.Entering.{with_side, does_bottom};

use crate::loop_runner::LoopRunner;
use crate::side::Side;
use aio_bh::{BottomHalves, Call, LotPass, LotPool, Polled, Runner, Turn};
use aio_core::{Home, Job, LoopTable, Seat};
use std::sync::Wait;

/// A loop's runner and the side, lent for one poll.
#[derive(Drop)]
pub struct Bottoms<'a, R> {
    runner: &'a mut R,
    side: &'a mut Side,
}

impl<'a, J: Job, R: LoopRunner<J>> Runner<J> for Bottoms<'a, R> {
    ghost use Rattle.std.specs.Prelude.{◌≡◌};
    ghost use Rattle.aio_loop.specs.Entering.{ForBottom, EntersFor};

    ghost can_run = { λ both sizes. R.can_run both.runner.now sizes both.side.now.timers.made };

    ghost does = { λ before entered after. (after.runner.ghost_name ≡ before.runner.ghost_name) × (after.side.ghost_name ≡ before.side.ghost_name) × EntersFor R.does (ForBottom entered.lent entered.answer) entered.made before.runner.now before.side.now after.runner.now after.side.now };

    fn run(&mut self, table: &LoopTable<J>, seat: &mut Seat<J>, call: &mut Call<J>) -> Turn {
        self.runner.bottom(table, seat, self.side, call)
    }
}

/// A poll with both. It leaves them where they were.
fn poll_both<J: Job + Drop, R: LoopRunner<J>, W: Wait>(
    rt: &W,
    table: &LoopTable<J>,
    pool: &LotPool,
    pass: &mut LotPass,
    home: &mut Home<J>,
    both: &mut Bottoms<'_, R>,
) -> Polled
    requires can_run { R.can_run both.old.runner.now table.now.sizes both.old.side.now.timers.made }
    requires lots { ServesHome table.now.sizes pool.now pass.old }
    requires home { IsHomeFree table.now home.old.seat }
    ensures same_runner { both.new.runner.ghost_name ≡ both.old.runner.ghost_name }
    ensures same_side { both.new.side.ghost_name ≡ both.old.side.ghost_name }
    ensures can_run { R.can_run both.new.runner.now table.now.sizes both.new.side.now.timers.made }
    ensures lots { ServesHome table.now.sizes pool.now pass.new }
    ensures home { IsHomeFree table.now home.new.seat }
    ensures legal { IsLegal table.now.sizes home.new.seat.known.seen }
    ensures walking { both.new.side.now.handlers.walking ≡ both.old.side.now.handlers.walking }
    ensures polls { Polls (does_bottom R.does) result (with_side both.old.runner.now both.old.side.now) home.old.seat.known (with_side both.new.runner.now both.new.side.now) home.new.seat.known }
    ensures returns { ReturnsLots pool.now home.old.seat.known home.new.seat.known pass.old pass.new }
{
    table.poll(rt, pool, pass, home, both)
}

/// A poll: the runner is entered for bottom halves, with the side.
pub fn poll_with<J: Job + Drop, R: LoopRunner<J>, W: Wait>(
    rt: &W,
    table: &LoopTable<J>,
    pool: &LotPool,
    pass: &mut LotPass,
    home: &mut Home<J>,
    side: &mut Side,
    runner: &mut R,
) -> Polled
    requires can_run { R.can_run runner.old table.now.sizes side.old.timers.made }
    requires lots { ServesHome table.now.sizes pool.now pass.old }
    requires home { IsHomeFree table.now home.old.seat }
    ensures can_run { R.can_run runner.new table.now.sizes side.new.timers.made }
    ensures lots { ServesHome table.now.sizes pool.now pass.new }
    ensures home { IsHomeFree table.now home.new.seat }
    ensures legal { IsLegal table.now.sizes home.new.seat.known.seen }
    ensures walking { side.new.handlers.walking ≡ side.old.handlers.walking }
    ensures polls { Polls (does_bottom R.does) result (with_side runner.old side.old) home.old.seat.known (with_side runner.new side.new) home.new.seat.known }
    ensures returns { ReturnsLots pool.now home.old.seat.known home.new.seat.known pass.old pass.new }
{
    let mut both = Bottoms { runner, side };
    poll_both(rt, table, pool, pass, home, &mut both)
}
