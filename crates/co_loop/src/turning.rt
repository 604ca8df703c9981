//! A turn of a loop with coroutines, and what is left to do behind it.
ghost use Rattle.std.specs.Prelude.{◌≡◌, ◌≤◌, IsFalse, not, ◌&&◌, length};
ghost use Rattle.aio_model.specs.Loop.Legal.{IsLegal};
ghost use Rattle.aio_bh.specs.OneShots.{ServesHome};
ghost use Rattle.aio_loop.specs.Homes.{IsHomeFree};
ghost use Rattle.aio_loop.specs.Walks.{loop_far};
ghost use Rattle.co_loop.specs.Crews.{far, SameCrew};
ghost use Rattle.co_loop.specs.Again.{is_kept, PostsEachAgain};
ghost use Rattle.co_loop.specs.Napping.{bed};
ghost use Rattle.co_loop.specs.Loops.{IsOnLoop, RunnerDoes, on_loop};
ghost use Rattle.co_loop.specs.Turning.{EndsTurn, TurnsAndEnds};

use crate::again::{keeps, post_all_kept};
use crate::napping::arm_all;
use crate::on_loop::CoLoop;
use aio_loop::{AioLoop, Side, Turned};
use aio_words::Clock;
use co_state::Co;
use std::sync::Wait;

impl<'a, C: Co<E> + Drop, E, W: Wait> CoLoop<'a, C, E, W> {
    /// Whether a turn may block: a loop that keeps a coroutine for another one has turns that don't, so that it is posted again soon.
    pub fn may_block(&self) -> bool
        ensures { result ≡ not (is_kept self.now.crew.leaving.items) }
    {
        !keeps(&self.crew.leaving)
    }

    /// What is left to do behind a turn: the timers of those that asked to sleep in it are armed, counted from one reading of the clock,
    /// so that none sleeps less than it asked for, and those that are kept are posted again.
    pub fn end_turn<K: Clock>(&mut self, side: &mut Side, clock: &mut K)
        requires fits { IsOnLoop C.is_of (C.source_of self.old.env.now) self.old.shared.now self.old.crew self.old.home self.old.run }
        requires timers { self.old.crew.coroutines ≤ side.old.timers.made }
        ensures same { (self.new.shared ≡ self.old.shared) × (self.new.env ≡ self.old.env) × (self.new.home ≡ self.old.home) × (self.new.is_ended ≡ self.old.is_ended) × SameCrew self.old.crew self.new.crew }
        ensures fits { IsOnLoop C.is_of (C.source_of self.old.env.now) self.old.shared.now self.new.crew self.new.home self.new.run }
        ensures timers { self.new.crew.coroutines ≤ side.new.timers.made }
        ensures handlers { side.new.handlers ≡ side.old.handlers }
        ensures ends { EndsTurn (K.time clock.old) (K.time clock.new) self.old.crew.coroutines (far self.old.crew) side.old.timers (far self.new.crew) side.new.timers }
    {
        let now = clock.now();
        arm_all(
            &mut self.crew.naps,
            &mut side.timers,
            now,
            self.crew.coroutines,
        );
        post_all_kept(self.rt, self.shared, &mut self.crew);
    }

    /// One turn of the loop, with all that is left to do behind it. The home thread. Where it is to block, it does so only if nothing is
    /// kept.
    pub fn turn<K: Clock>(
        &mut self,
        aio: &mut AioLoop<'_, ()>,
        clock: &mut K,
        block: bool,
    ) -> Turned
        requires fits { IsOnLoop C.is_of (C.source_of self.old.env.now) self.old.shared.now self.old.crew self.old.home self.old.run }
        requires timers { self.old.crew.coroutines ≤ aio.old.side.timers.made }
        requires lots { ServesHome aio.old.table.now.sizes aio.old.pool.now aio.old.lot_pass }
        requires home { IsHomeFree aio.old.table.now aio.old.home.seat }
        requires walking { IsFalse aio.old.side.handlers.walking }
        ensures same { (aio.new.table ≡ aio.old.table) × (aio.new.pool ≡ aio.old.pool) }
        ensures fits { IsOnLoop C.is_of (C.source_of self.new.env.now) self.new.shared.now self.new.crew self.new.home self.new.run }
        ensures timers { self.new.crew.coroutines ≤ aio.new.side.timers.made }
        ensures lots { ServesHome aio.old.table.now.sizes aio.old.pool.now aio.new.lot_pass }
        ensures home { IsHomeFree aio.old.table.now aio.new.home.seat }
        ensures legal { IsLegal aio.old.table.now.sizes aio.new.home.seat.known.seen }
        ensures walking { IsFalse aio.new.side.handlers.walking }
        ensures place { (self.new.shared ≡ self.old.shared) × (self.new.env ≡ self.old.env) × SameCrew self.old.crew self.new.crew }
        ensures turns { TurnsAndEnds (λ before entered after. (after.shared ≡ before.shared) × (after.env ≡ before.env) × RunnerDoes C.is_of C.resumes before.shared.now entered (on_loop before.crew before.home before.is_ended) (on_loop after.crew after.home after.is_ended)) (λ e. far e.crew) (λ turned_to after. (after.home ≡ turned_to.home) × (after.is_ended ≡ turned_to.is_ended)) aio.old.pool.now (block && not (is_kept self.old.crew.leaving.items)) aio.old.table.now.sizes.events self.old.crew.coroutines result (K.time clock.old) (K.time clock.new) aio.old.lot_pass aio.new.lot_pass (loop_far aio.old.home.seat.known aio.old.side self.old) (loop_far aio.new.home.seat.known aio.new.side self.new) }
    {
        let rt = self.rt;
        let block = block & self.may_block();
        let turned = aio.turn(rt, self, clock, block);
        self.end_turn(&mut aio.side, clock);
        turned
    }
}
