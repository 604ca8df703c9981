//! A seat of a loop's two tables.
ghost use Rattle.std.specs.Prelude.{◌≡◌, ◌<◌, ◌≤◌, ◌+◌, ◌*◌};
ghost use Rattle.loop_rows.specs.Rows.{AreSeatsOf, Divides, Unites};

use crate::shared::LoopShared;
use aio_core::Seat;
use co_schedule::CoSeat;
use co_state::Origin;

/// A seat of each table of one loop. Both have the same numbers.
#[derive(Drop)]
pub struct Seats<C: Origin> {
    pub bottoms: Seat<()>,
    pub coroutines: CoSeat<C>,
}

/// Cuts the last half of the numbers off.
pub(crate) fn divide<C: Origin + Drop>(
    shared: &LoopShared<C>,
    seats: &mut Seats<C>,
    half: u32,
) -> Seats<C>
    requires seats { AreSeatsOf seats.old.bottoms.known.first (2 * half) shared.now seats.old }
    requires half { 0 < half }
    ensures { Divides half shared.now seats.old seats.new result }
{
    let (Some(bottoms), Some(coroutines)) = (
        shared.bottoms.split(&mut seats.bottoms),
        shared.coroutines.split(&mut seats.coroutines),
    ) else {
        unreachable!()
    };
    let _half = half;
    Seats {
        bottoms,
        coroutines,
    }
}

/// Puts the numbers of the other behind those of this one.
pub(crate) fn unite<C: Origin + Drop>(shared: &LoopShared<C>, seats: &mut Seats<C>, other: Seats<C>)
    requires seats { AreSeatsOf seats.old.bottoms.known.first seats.old.bottoms.known.count shared.now seats.old }
    requires other { AreSeatsOf (seats.old.bottoms.known.first + seats.old.bottoms.known.count) other.bottoms.known.count shared.now other }
    requires below { other.bottoms.known.first < 64 }
    ensures { Unites shared.now seats.old other seats.new }
{
    let Seats {
        bottoms,
        coroutines,
    } = other;
    shared.bottoms.join(&mut seats.bottoms, bottoms);
    shared.coroutines.join(&mut seats.coroutines, coroutines);
}
