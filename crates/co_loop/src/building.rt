//! What a loop takes memory for, once.
ghost use Rattle.std.specs.Prelude.{◌≡◌, ◌<◌, ◌+◌, IfOk, length, replicate, None, List};
ghost use Rattle.co_loop.specs.declared.naps.Nap.TheVariants.{Awake};
ghost use Rattle.co_loop.specs.Building.{IsNewCrew};

use crate::crew::Crew;
use crate::naps::Nap;
use aio_model::NoMemory;
use aio_timers::Timers;
use co_state::{CoStore, Origin};
use co_waits::CoQueue;
use loop_rows::Seats;
use std::alloc::{AllocError, Global};

/// So many places with nothing in them.
fn empty_places<T: Drop>(alloc: Global, count: u32) -> Result<Vec<Option<T>>, AllocError>
    ensures { IfOk result (λ places. places.items ≡ replicate count None) }
{
    let mut places = Vec::with_capacity(alloc, count as usize)?;
    for _ in 0..count {
        places.push(None)?;
    }
    Ok(places)
}

fn all_awake(alloc: Global, count: u32) -> Result<Vec<Nap>, AllocError>
    ensures { IfOk result (λ naps. naps.items ≡ replicate count Awake) }
{
    vec![in alloc; Nap::Awake; count as usize]
}

fn add_timer(timers: &mut Timers)
    requires room { timers.old.made < timers.old.room }
    ensures made { timers.new.made ≡ timers.old.made + 1 }
    ensures room { timers.new.room ≡ timers.old.room }
{
    if timers.add().is_none() {
        unreachable!()
    }
}

/// A timer for each coroutine, none of them armed. No later call takes memory.
pub fn build_timers(alloc: Global, coroutines: u32) -> Result<Timers, NoMemory>
    ensures { IfOk result (λ timers. timers.made ≡ coroutines) }
{
    let mut timers = Timers::build(alloc, coroutines)?;
    for _ in 0..coroutines {
        add_timer(&mut timers);
    }
    Ok(timers)
}

impl<C: Origin + Drop> Crew<C> {
    /// A crew of nobody, with room for so many coroutines of an origin that the caller chooses. No later call takes memory. `own` is the
    /// number of its loop, and `seats` has a seat of each loop.
    pub fn build(
        alloc: Global,
        own: u32,
        coroutines: u32,
        seats: Vec<Seats<C>>,
    ) -> Result<Crew<C>, NoMemory>
        ghost origin: { C.Source }
        ensures new { IfOk result (λ crew. IsNewCrew origin crew) }
        ensures numbers { IfOk result (λ crew. (crew.own ≡ own) × (crew.coroutines ≡ coroutines)) }
        ensures seats { IfOk result (λ crew. crew.seats.items ≡ seats.items) }
    {
        let store = CoStore::build(alloc, coroutines)?;
        let woken = CoQueue::build(alloc, coroutines)?;
        let (Ok(naps), Ok(leaving), Ok(ended)) = (
            all_awake(alloc, coroutines),
            empty_places(alloc, coroutines),
            empty_places(alloc, coroutines),
        ) else {
            return Err(NoMemory);
        };
        Ok(Crew {
            own,
            coroutines,
            store,
            woken,
            naps,
            leaving,
            ended,
            done: 0,
            quits: false,
            seats,
        })
    }
}
