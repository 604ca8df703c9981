//! A loop with one handle, and the table of the coroutines of its home.
ghost use Rattle.std.specs.Prelude.{◌≡◌, ◌≤◌, IfOk};
ghost use Rattle.aio_bh.specs.OneShots.{ServesHome};
ghost use Rattle.aio_bh.specs.Ready.{IsBetweenPolls};
ghost use Rattle.aio_core.specs.Calls.{IsReady};
ghost use Rattle.co_schedule.specs.Calls.{IsSeatOf};
ghost use Rattle.co_schedule.specs.Homes.{IsIdle};

use aio_bh::{LotBuilt, LotPool};
use aio_core::{Built, LoopTable};
use aio_model::NoMemory;
use co_schedule::{CoBuilt, CoRun, CoTable};
use std::alloc::Global;
use std::sync::Wait;

/// A loop, the table of its coroutines, and room for those that home takes, before anything was called.
#[derive(Drop)]
pub struct HomeParts {
    pub lots: LotBuilt,
    pub of_loop: Built<()>,
    pub of_coroutines: CoBuilt<u64>,
    pub run: CoRun,
}

/// Builds them for so many coroutines: 64 at most. On an Err nothing is left.
pub fn build_parts<R: Wait>(rt: &R, alloc: Global, coroutines: u32) -> Result<HomeParts, NoMemory>
    requires { coroutines ≤ 64 }
    ensures lots { IfOk result (λ r. ServesHome r.of_loop.table.sizes r.lots.pool r.lots.home) }
    ensures home { IfOk result (λ r. IsBetweenPolls r.of_loop.table r.of_loop.home.seat) }
    ensures seat { IfOk result (λ r. IsReady r.of_loop.table r.of_loop.seat × (r.of_loop.table.sizes.handles ≡ 1)) }
    ensures idle { IfOk result (λ r. IsIdle r.of_coroutines.table r.of_coroutines.home r.run) }
    ensures coroutines { IfOk result (λ r. IsSeatOf r.of_coroutines.table r.of_coroutines.seat × (r.of_coroutines.table.coroutines ≡ coroutines)) }
{
    let Ok(lots) = LotPool::build(rt, alloc, 1, 0) else {
        return Err(NoMemory);
    };
    let Ok(of_loop) = LoopTable::<()>::build(alloc, 1, 0, 0) else {
        return Err(NoMemory);
    };
    let Ok(of_coroutines) = CoTable::<u64>::build(alloc, coroutines) else {
        return Err(NoMemory);
    };
    let Ok(run) = CoRun::build(alloc, coroutines) else {
        return Err(NoMemory);
    };
    Ok(HomeParts {
        lots,
        of_loop,
        of_coroutines,
        run,
    })
}
