//! How often coroutines moved from loop to loop in a run.
ghost use Rattle.std.specs.Prelude.{◌≡◌, length};
ghost use Rattle.aio_script.specs.Image.Bounds.{IsBounded};
ghost use Rattle.aio_model.specs.Counts.{counted};
ghost use Rattle.aio_run.specs.Moves.{HaveServed, begun_in, count_of_moves, moved_in, states_in};

use crate::RunEnd;
use aio_model::Script;
use co_state::Origin;

/// How many states came with what was scheduled on these loops. It stays at the greatest u64.
fn states_in<C: Origin>(loops: &[RunEnd<C>]) -> u64
    ensures { result ≡ counted (states_in loops.now) }
{
    let mut total: u64 = 0;
    for end in loops {
        total = total.saturating_add(end.coroutines.states());
    }
    total
}

/// A count that stays at the greatest u32.
fn at_most_u32(count: u64) -> u32
    ensures { result ≡ count_of_moves count }
{
    if count < u64::from(u32::MAX) {
        count as u32
    } else {
        u32::MAX
    }
}

/// How often a coroutine came from another loop, over all loops of a script's run. It stays at the greatest u32. A state came with
/// each that began or moved, and each stream began once; so it is the number of states without that of the streams.
pub fn moves_in<C: Origin>(script: &Script, loops: &[RunEnd<C>]) -> u32
    requires bounded { IsBounded script.now }
    requires served { HaveServed script.now loops.now }
    ensures moved { result ≡ count_of_moves (moved_in loops.now) }
    ensures begun { begun_in loops.now ≡ length script.now.streams }
{
    let streams = script.streams.as_slice().len() as u64;
    let moved = states_in(loops) - streams;
    at_most_u32(moved)
}
