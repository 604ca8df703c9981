//! New loops, and one seat of each of their tables with all numbers but the home's.
ghost use Rattle.std.specs.Prelude.{◌≡◌, ◌≤◌, IfOk, vec_len};
ghost use Rattle.loop_rows.specs.Rows.{AreSeatsOf};
ghost use Rattle.loop_rows.specs.Opening.{IsNewLoop, AreHomesOf, AreNewLoops};

use crate::rows::Row;
use crate::seats::Seats;
use crate::shared::LoopShared;
use aio_bh::{LotBuilt, LotPass, LotPool};
use aio_core::{Built, Home, LoopTable};
use aio_model::NoMemory;
use co_schedule::{CoBuilt, CoHome, CoTable};
use co_state::Origin;
use std::alloc::Global;
use std::sync::Wait;

/// Handle 0 takes the coroutines that were scheduled.
const HANDLES: u32 = 1;

const LOTS: u32 = 0;

/// Event 0 ends a loop's run.
const EVENTS: u32 = 1;

/// The homes of one loop, and the home's pass of its pool.
#[derive(Drop)]
pub struct Homes<C: Origin> {
    pub home: Home<()>,
    pub lot_pass: LotPass,
    pub coroutines: CoHome<C>,
}

/// Loops, in order: what all threads share, the homes, and a row of all other numbers.
#[derive(Drop)]
pub struct Opened<C: Origin> {
    pub shared: Vec<LoopShared<C>>,
    pub homes: Vec<Homes<C>>,
    pub row: Row<C>,
}

/// One loop.
#[derive(Drop)]
struct OpenedLoop<C: Origin> {
    shared: LoopShared<C>,
    homes: Homes<C>,
    seats: Seats<C>,
}

#[tactic(auto, using(crate::proofs::Building::new_seats, crate::proofs::Building::new_homes))]
fn open_loop<C: Origin + Drop, R: Wait>(
    rt: &R,
    alloc: Global,
    coroutines: u32,
) -> Result<OpenedLoop<C>, NoMemory>
    ghost origin: { C.Source }
    requires { coroutines ≤ 64 }
    ensures made { IfOk result (λ made. IsNewLoop coroutines origin made.shared made.homes made.seats) }
    ensures seats { IfOk result (λ made. AreSeatsOf 0 64 made.shared made.seats) }
    ensures homes { IfOk result (λ made. AreHomesOf made.shared made.homes) }
{
    let Ok(bottoms) = LoopTable::<()>::build(alloc, HANDLES, LOTS, EVENTS) else {
        return Err(NoMemory);
    };
    let lots = LotPool::build(rt, alloc, HANDLES, LOTS)?;
    let entered = CoTable::<C>::build(alloc, coroutines)?;
    Ok(put_together(bottoms, lots, entered))
}

/// What was built for one loop, by who has it.
fn put_together<C: Origin + Drop>(
    bottoms: Built<()>,
    lots: LotBuilt,
    entered: CoBuilt<C>,
) -> OpenedLoop<C>
    requires sizes { (bottoms.table.sizes.handles ≡ 1) × (bottoms.table.sizes.lots ≡ 0) × (bottoms.table.sizes.events ≡ 1) }
    ensures shared { (result.shared.bottoms ≡ bottoms.table) × (result.shared.pool ≡ lots.pool) × (result.shared.coroutines ≡ entered.table) }
    ensures homes { (result.homes.home ≡ bottoms.home) × (result.homes.lot_pass ≡ lots.home) × (result.homes.coroutines ≡ entered.home) }
    ensures seats { (result.seats.bottoms ≡ bottoms.seat) × (result.seats.coroutines ≡ entered.seat) }
{
    OpenedLoop {
        shared: LoopShared {
            bottoms: bottoms.table,
            pool: lots.pool,
            coroutines: entered.table,
        },
        homes: Homes {
            home: bottoms.home,
            lot_pass: lots.home,
            coroutines: entered.home,
        },
        seats: Seats {
            bottoms: bottoms.seat,
            coroutines: entered.seat,
        },
    }
}

/// So many loops, each with one handle, no lots and one event, and a table of so many coroutines of the origin that the caller picks.
/// Nothing was done on any.
pub fn open<C: Origin + Drop, R: Wait>(
    rt: &R,
    alloc: Global,
    loops: usize,
    coroutines: u32,
) -> Result<Opened<C>, NoMemory>
    ghost origin: { C.Source }
    requires { coroutines ≤ 64 }
    ensures { IfOk result (λ opened. AreNewLoops loops coroutines origin opened) }
{
    let (Ok(mut shared), Ok(mut homes), Ok(mut seats)) = (
        Vec::with_capacity(alloc, loops),
        Vec::with_capacity(alloc, loops),
        Vec::with_capacity(alloc, loops),
    ) else {
        return Err(NoMemory);
    };
    for _ in 0..loops {
        let made = open_loop(rt, alloc, coroutines)?;
        shared.push_reserved(made.shared);
        homes.push_reserved(made.homes);
        seats.push_reserved(made.seats);
    }
    Ok(Opened {
        shared,
        homes,
        row: Row {
            first: 0,
            count: 64,
            seats,
        },
    })
}
