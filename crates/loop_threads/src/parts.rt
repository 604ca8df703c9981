//! A part of a run: one loop with all that its thread owns.
ghost use Rattle.std.specs.Prelude.{◌≡◌, false};
ghost use Rattle.co_loop.specs.Rows.{AreOfOrigin};
ghost use Rattle.co_loop.specs.Working.{CanWork, Works};
ghost use Rattle.loop_threads.specs.Parts.{IsLoopPart, TakesTurn};

use aio_bh::LotPass;
use aio_core::Home;
use aio_loop::{AioLoop, Side};
use aio_words::Clock;
use co_loop::{CoWork, Worked};
use co_schedule::CoHome;
use co_state::{Co, Origin};
use loop_rows::{LoopShared, Row, Station};
use std::sync::Wait;

/// One loop with all that the thread that carries it owns.
#[derive(Drop)]
pub struct Part<C: Origin, W> {
    pub number: usize,
    pub home: Home<()>,
    pub side: Side,
    pub lot_pass: LotPass,
    pub coroutines: CoHome<C>,
    pub row: Row<C>,
    pub work: W,
    /// Whether its run has ended.
    pub carried: bool,
}

impl<C: Origin + Drop, K: Clock + Drop> Part<C, CoWork<C, K>> {
    /// One turn.
    pub(crate) fn turned<E, R: Wait>(
        self,
        rt: &R,
        env: &E,
        shared: &[LoopShared<C>],
        block: bool,
    ) -> Part<C, CoWork<C, K>>
    where
        C: Co<E>,
        requires lent { AreOfOrigin (C.source_of env.now) shared.now }
        requires part { IsLoopPart (CanWork C.is_of) shared.now self }
        ensures { TakesTurn (CanWork C.is_of) (Works E R C.is_of C.resumes K.time) shared.now self result }
    {
        let Part {
            number,
            home,
            side,
            lot_pass,
            coroutines,
            row,
            work,
            carried: _,
        } = self;
        let station = Station {
            number,
            turning: AioLoop {
                table: &shared[number].bottoms,
                pool: &shared[number].pool,
                lot_pass,
                home,
                side,
            },
            coroutines,
            row,
        };
        let Worked {
            work,
            station,
            ended,
        } = work.turn(rt, env, shared, station, block);
        let Station {
            number,
            turning: AioLoop {
                table: _,
                pool: _,
                lot_pass,
                home,
                side,
            },
            coroutines,
            row,
        } = station;
        Part {
            number,
            home,
            side,
            lot_pass,
            coroutines,
            row,
            work,
            carried: ended,
        }
    }
}
