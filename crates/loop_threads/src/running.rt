//! The run.
ghost use Rattle.std.specs.Prelude.{◌≡◌, ◌<◌, ◌≤◌, length, vec_len, vec_capacity};
ghost use Rattle.co_loop.specs.Rows.{AreOfOrigin};
ghost use Rattle.co_loop.specs.Working.{CanWork, Works};
ghost use Rattle.loop_threads.specs.Members.{MembersEach};
ghost use Rattle.loop_threads.specs.Within.{OwnEach, RowWithin};
ghost use Rattle.loop_rows.specs.Rows.{IsRow, HasNumbers};
ghost use Rattle.loop_threads.specs.Running.{IsPrepared, RunsEach};

use crate::carrying::quieten;
use crate::members::{Joined, join_all};
use crate::preparing::Prepared;
use crate::threads::carry_all;
use aio_words::Clock;
use co_loop::CoWork;
use co_state::{Co, Origin};
use loop_rows::LoopShared;
use std::sync::Wait;
use std::thread::Threads;

impl<C: Origin + Drop + Send, K: Clock + Drop + Send> Prepared<C, CoWork<C, K>> {
    /// Runs each loop on a thread of its own until its work answers that the run has ended, and joins the threads. A loop whose thread
    /// can't be started is carried by the caller, in turns that don't block. At the end the caller gives each loop turns until all
    /// answer so in one round. What comes back are all loops, in order, and one row of all numbers. It takes no memory.
    /// Every coroutine is lent `env` at each resume.
    pub fn run<E: Sync, R: Threads + Wait + Sync>(
        self,
        rt: &R,
        env: &E,
        shared: &[LoopShared<C>],
    ) -> Joined<C, CoWork<C, K>>
    where
        C: Co<E>,
        requires lent { AreOfOrigin (C.source_of env.now) shared.now }
        requires prepared { IsPrepared (CanWork C.is_of) shared.now self }
        ensures row { IsRow shared.now result.row × HasNumbers 0 64 result.row }
        ensures own { OwnEach (length shared.now) result.row.seats.items }
        ensures mine { 0 < length shared.now → RowWithin (length shared.now) self.mine.seats.items result.row.seats.items }
        ensures members { (vec_len result.members ≡ length shared.now) × RunsEach (CanWork C.is_of) (Works E R C.is_of C.resumes K.time) shared.now result.row (length shared.now) self.parts.items result.members.items }
        ensures homes { MembersEach (length shared.now) shared.now result.members.items }
        ensures room { (vec_len result.ends ≡ 0) × (length shared.now ≤ vec_capacity result.ends) }
    {
        let Prepared {
            parts,
            mine,
            handed_back,
            left,
            other,
            mut late,
            done,
            members,
            ends,
        } = self;
        let mut done = carry_all(rt, env, shared, &handed_back, parts, left, other, done);
        quieten(rt, env, shared, &mut done, &mut late);
        join_all(shared, mine, done, members, ends)
    }
}
