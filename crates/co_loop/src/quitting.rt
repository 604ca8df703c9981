//! The quit mark: whoever sets it in a resume asks all loops to end.
ghost use Rattle.std.specs.Prelude.{◌≡◌, ◌<◌, length};
ghost use Rattle.loop_rows.specs.Posts.{IsSeated};
ghost use Rattle.co_loop.specs.Rows.{AreSeatsOfLoops};
ghost use Rattle.co_loop.specs.Quits.{SetsEnd, SetsEnds};

use aio_notify::LoopEvents;
use co_state::Origin;
use loop_rows::{LoopShared, Seats};

/// The event by which a loop learns that its run is to end.
pub(crate) const END: u32 = 0;

fn set_end<C: Origin>(shared: &LoopShared<C>, seats: &mut Seats<C>)
    requires seats { IsSeated shared.now seats.old }
    requires events { 0 < shared.now.bottoms.sizes.events }
    ensures seats { IsSeated shared.now seats.new }
    ensures sets { SetsEnd seats.old seats.new }
{
    shared.bottoms.set_event(&mut seats.bottoms, END);
}

/// Sets event 0 of each loop, the own one among them.
pub(crate) fn set_ends<C: Origin>(
    shared: &[LoopShared<C>],
    seats: &mut Vec<Seats<C>>,
    coroutines: u32,
)
    requires row { AreSeatsOfLoops coroutines shared.now seats.old.items }
    ensures row { AreSeatsOfLoops coroutines shared.now seats.new.items }
    ensures sets { SetsEnds (length shared.now) seats.old.items seats.new.items }
{
    let _coroutines = coroutines;
    for at in 0..shared.len() {
        set_end(&shared[at], &mut seats[at]);
    }
}
