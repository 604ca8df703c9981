//! What one loop shares with all threads.
ghost use Rattle.std.specs.Prelude.{◌≡◌};

use aio_bh::LotPool;
use aio_core::LoopTable;
use co_schedule::CoTable;
use co_state::Origin;

/// The tables of one loop, which has one handle, no lots and one event, and the pool of its lots.
#[derive(Drop)]
pub struct LoopShared<C: Origin> {
    pub bottoms: LoopTable<()>,
    pub pool: LotPool,
    pub coroutines: CoTable<C>,
    ghost sizes: { (bottoms.sizes.handles ≡ 1) × (bottoms.sizes.lots ≡ 0) × (bottoms.sizes.events ≡ 1) },
}
