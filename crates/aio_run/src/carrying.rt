//! Loops are carried to their ends.
ghost use Rattle.std.specs.Prelude.{◌≡◌, ◌≤◌, length, vec_len, vec_capacity};
ghost use Rattle.co_loop.specs.Rows.{AreOfOrigin};
ghost use Rattle.co_loop.specs.Working.{CanWork, Works};
ghost use Rattle.loop_rows.specs.Opening.{HomesEach};
ghost use Rattle.loop_rows.specs.Rows.{IsRow, HasNumbers};
ghost use Rattle.loop_threads.specs.Members.{MembersEach};
ghost use Rattle.loop_threads.specs.Reserving.{IsReserved};
ghost use Rattle.loop_threads.specs.Running.{CanBeginEach};
ghost use Rattle.loop_threads.specs.Within.{OwnEach};
ghost use Rattle.aio_run.specs.Runs.{AreCarried, AreRun};

use aio_words::Clock;
use co_loop::CoWork;
use co_state::Co;
use loop_rows::{Homes, LoopShared, Row};
use loop_threads::{Hand, Joined, LoopRun, Reserved, prepare};
use std::sync::Wait;
use std::thread::Threads;

/// Gives each loop turns, on a thread of its own, to the end of its run.
fn run_loops<C: Co<E> + Drop + Send, E: Sync, K: Clock + Drop + Send, R: Threads + Wait + Sync>(
    rt: &R,
    env: &E,
    shared: &[LoopShared<C>],
    reserved: Reserved<C, CoWork<C, K>>,
    homes: Vec<Homes<C>>,
    hands: Vec<Hand<CoWork<C, K>>>,
    row: Row<C>,
) -> Joined<C, CoWork<C, K>>
    requires lent { AreOfOrigin (C.source_of env.now) shared.now }
    requires few { length shared.now ≤ 16 }
    requires reserved { IsReserved (length shared.now) reserved }
    requires homes { (vec_len homes ≡ length shared.now) × HomesEach (length shared.now) shared.now homes.items }
    requires hands { (vec_len hands ≡ length shared.now) × CanBeginEach (CanWork C.is_of) shared.now homes.items hands.items }
    requires row { IsRow shared.now row × HasNumbers 0 64 row }
    ensures carried { AreCarried (CanWork C.is_of) (Works E R C.is_of C.resumes K.time) shared.now homes.items hands.items row result }
    ensures row { IsRow shared.now result.row × HasNumbers 0 64 result.row }
    ensures own { OwnEach (length shared.now) result.row.seats.items }
    ensures members { (vec_len result.members ≡ length shared.now) × MembersEach (length shared.now) shared.now result.members.items }
    ensures room { (vec_len result.ends ≡ 0) × (length shared.now ≤ vec_capacity result.ends) }
{
    prepare(reserved, shared, homes, hands, row).run(rt, env, shared)
}

/// Runs the loops, and ends each once all threads are joined.
pub(crate) fn carry<
    C: Co<E> + Drop + Send,
    E: Sync,
    K: Clock + Drop + Send,
    R: Threads + Wait + Sync,
>(
    rt: &R,
    env: &E,
    shared: Vec<LoopShared<C>>,
    reserved: Reserved<C, CoWork<C, K>>,
    homes: Vec<Homes<C>>,
    hands: Vec<Hand<CoWork<C, K>>>,
    row: Row<C>,
) -> Vec<LoopRun<C, CoWork<C, K>>>
    requires lent { AreOfOrigin (C.source_of env.now) shared.items }
    requires few { length shared.items ≤ 16 }
    requires reserved { IsReserved (length shared.items) reserved }
    requires homes { (vec_len homes ≡ length shared.items) × HomesEach (length shared.items) shared.items homes.items }
    requires hands { (vec_len hands ≡ length shared.items) × CanBeginEach (CanWork C.is_of) shared.items homes.items hands.items }
    requires row { IsRow shared.items row × HasNumbers 0 64 row }
    ensures { AreRun (CanWork C.is_of) (Works E R C.is_of C.resumes K.time) shared.items homes.items hands.items row result.items }
{
    let joined = run_loops(rt, env, &shared, reserved, homes, hands, row);
    joined.end(rt, shared)
}
