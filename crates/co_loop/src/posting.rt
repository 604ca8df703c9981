//! Posts to loops by number, each through the seats of that loop.
ghost use Rattle.std.specs.Prelude.{◌≡◌, ◌<◌, MatchResult, length};
ghost use Rattle.co_schedule.specs.Parcels.{has_some};
ghost use Rattle.loop_rows.specs.Posts.{IsStateAt, Posts, FindsMarked};
ghost use Rattle.co_loop.specs.Rows.{AreSeatsOfLoops, ChangesOne};

use aio_model::Cause;
use co_schedule::Already;
use co_state::Origin;
use loop_rows::{LoopShared, Seats};
use std::sync::Wait;

/// Posts a coroutine to the loop of this number.
pub(crate) fn post_to<C: Origin + Drop, W: Wait>(
    rt: &W,
    shared: &[LoopShared<C>],
    seats: &mut Vec<Seats<C>>,
    coroutines: u32,
    to: u32,
    co: u32,
    cause: Cause,
    state: Option<C>,
) -> Result<(), Already<C>>
    requires row { AreSeatsOfLoops coroutines shared.now seats.old.items }
    requires to { to < length shared.now }
    requires below { co < coroutines }
    requires state { IsStateAt C.is_of shared.now to co state }
    ensures row { AreSeatsOfLoops coroutines shared.now seats.new.items }
    ensures posts { MatchResult result (λ _. ChangesOne to (Posts co cause (has_some state)) seats.old.items seats.new.items) (λ already. (already.state ≡ state) × ChangesOne to (FindsMarked co already.mark) seats.old.items seats.new.items) }
{
    shared[to as usize].post(rt, &mut seats[to as usize], co, cause, state)
}
