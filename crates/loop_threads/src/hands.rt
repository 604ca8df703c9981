//! What is to be done on each loop of a run, with nobody on it yet.
ghost use Rattle.std.specs.Prelude.{◌≡◌, ◌≤◌, ℕ, IfOk, IsFalse, List, length, vec_len};
ghost use Rattle.loop_rows.specs.declared.shared.LoopShared.{LoopShared};
ghost use Rattle.loop_rows.specs.declared.seats.Seats.{Seats};
ghost use Rattle.loop_rows.specs.declared.opening.Homes.{Homes};
ghost use Rattle.loop_rows.specs.Opening.{NewEach};
ghost use Rattle.co_loop.specs.Working.{CanWork};
ghost use Rattle.loop_threads.specs.Hands.{IsNewWork, IsNewHand, AreNewHands};
ghost use Rattle.loop_threads.specs.Running.{CanBeginEach};

use aio_loop::{Handlers, Side};
use aio_model::NoMemory;
use aio_words::Clock;
use co_loop::{CoWork, Crew, build_timers};
use co_schedule::CoRun;
use co_state::Origin;
use std::alloc::Global;

/// The event that ends a loop's run.
const END: u32 = 0;

/// What is to be done on a loop, and the handlers and timers for it.
#[derive(Drop)]
pub struct Hand<W> {
    pub side: Side,
    pub work: W,
}

/// A handler on event 0, and a timer for each coroutine.
fn new_side(alloc: Global, coroutines: u32) -> Result<Side, NoMemory>
    ensures { IfOk result (λ side. IsFalse side.handlers.walking × (side.timers.made ≡ coroutines)) }
{
    let mut handlers = Handlers::build(alloc, 1)?;
    let Ok(_) = handlers.add(END, 0) else {
        unreachable!()
    };
    let timers = build_timers(alloc, coroutines)?;
    Ok(Side { handlers, timers })
}

fn new_work<C: Origin + Drop, K: Clock + Drop>(
    alloc: Global,
    own: u32,
    coroutines: u32,
    clock: K,
) -> Result<CoWork<C, K>, NoMemory>
    ghost origin: { C.Source }
    ensures { IfOk result (λ work. IsNewWork own coroutines origin clock work) }
{
    let crew = Crew::<C>::build(alloc, own, coroutines, Vec::new(alloc))?;
    let run = CoRun::build(alloc, coroutines)?;
    Ok(CoWork::new(crew, run, clock))
}

fn new_hand<C: Origin + Drop, K: Clock + Drop>(
    alloc: Global,
    own: u32,
    coroutines: u32,
    clock: K,
) -> Result<Hand<CoWork<C, K>>, NoMemory>
    ghost origin: { C.Source }
    ensures { IfOk result (λ hand. IsNewHand own coroutines origin clock hand) }
{
    let side = new_side(alloc, coroutines)?;
    let work = new_work::<C, K>(alloc, own, coroutines, clock)?;
    Ok(Hand { side, work })
}

/// What is to be done on so many loops, each with one of the clocks, in order: handle 0 takes the coroutines that were scheduled there,
/// event 0 ends the run. No later call of theirs takes memory. The caller picks the origin of the coroutines.
pub fn new_hands<C: Origin + Drop, K: Clock + Drop>(
    alloc: Global,
    coroutines: u32,
    clocks: Vec<K>,
) -> Result<Vec<Hand<CoWork<C, K>>>, NoMemory>
    ghost origin: { C.Source }
    requires few { vec_len clocks ≤ 16 }
    ensures hands { IfOk result (λ hands. (vec_len hands ≡ vec_len clocks) × AreNewHands (vec_len clocks) coroutines origin clocks.items hands.items) }

    // On so many loops that are new.
    ensures begins { IfOk result (λ hands. (shared : List (LoopShared C C.Source)) (homes : List (Homes C C.Source)) (seats : List (Seats C C.Source)) → length shared ≡ vec_len clocks → NewEach (vec_len clocks) coroutines origin shared homes seats → CanBeginEach (CanWork C.is_of) shared homes hands.items) }
{
    let mut clocks = clocks;
    let Ok(mut hands) = Vec::with_capacity(alloc, clocks.len()) else {
        return Err(NoMemory);
    };
    for own in 0..clocks.len() {
        let clock = clocks.remove(0);
        let hand = new_hand::<C, K>(alloc, own as u32, coroutines, clock)?;
        hands.push_reserved(hand);
    }
    Ok(hands)
}
