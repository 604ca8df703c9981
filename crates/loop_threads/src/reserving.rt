//! All memory of a run of loops is taken before it.
ghost use Rattle.std.specs.Prelude.{◌≡◌, ◌≤◌, IfOk, vec_len, vec_capacity};
ghost use Rattle.loop_threads.specs.Dealing.{AreSpares};
ghost use Rattle.loop_threads.specs.Reserving.{IsReserved};

use crate::ending::LoopRun;
use crate::members::Member;
use crate::parts::Part;
use aio_model::NoMemory;
use co_state::Origin;
use loop_rows::{Row, Seats};
use std::alloc::Global;
use std::sync::atomic::AtomicBool;

/// A row of all numbers is cut into so many rows of two.
const PAIRS: usize = 32;

/// So often is it cut: each cut makes one row more.
const CUTS: usize = 31;

/// Room for a run of loops.
#[derive(Drop)]
pub struct Reserved<C: Origin, W> {
    pub spares: Vec<Vec<Seats<C>>>,
    pub pairs: Vec<Row<C>>,
    pub parts: Vec<Part<C, W>>,
    pub handed_back: Vec<AtomicBool>,
    pub left: Vec<Part<C, W>>,
    pub other: Vec<Part<C, W>>,
    pub late: Vec<Part<C, W>>,
    pub done: Vec<Part<C, W>>,
    pub members: Vec<Member<C, W>>,
    pub ends: Vec<LoopRun<C, W>>,
}

fn flags(alloc: Global, count: usize) -> Result<Vec<AtomicBool>, NoMemory>
    ensures { IfOk result (λ flags. vec_len flags ≡ count) }
{
    let Ok(mut flags) = Vec::with_capacity(alloc, count) else {
        return Err(NoMemory);
    };
    for _ in 0..count {
        flags.push_reserved(AtomicBool::new(false));
    }
    Ok(flags)
}

fn room<T>(alloc: Global, count: usize) -> Result<Vec<T>, NoMemory>
    ensures { IfOk result (λ room. (vec_len room ≡ 0) × (count ≤ vec_capacity room)) }
{
    match Vec::with_capacity(alloc, count) {
        Ok(room) => Ok(room),
        Err(_) => Err(NoMemory),
    }
}

/// Room for the seats of each row that is cut off.
fn spares<C: Origin + Drop>(alloc: Global, loops: usize) -> Result<Vec<Vec<Seats<C>>>, NoMemory>
    ensures { IfOk result (λ spares. AreSpares loops spares.items × (vec_len spares ≡ 31)) }
{
    let mut spares = room(alloc, CUTS)?;
    for _ in 0..CUTS {
        spares.push_reserved(room(alloc, loops)?);
    }
    Ok(spares)
}

/// Takes all memory of a run of so many loops.
pub fn reserve<C: Origin + Drop, W: Drop>(
    alloc: Global,
    loops: usize,
) -> Result<Reserved<C, W>, NoMemory>
    ensures { IfOk result (λ reserved. IsReserved loops reserved) }
{
    Ok(Reserved {
        spares: spares(alloc, loops)?,
        pairs: room(alloc, PAIRS)?,
        parts: room(alloc, loops)?,
        handed_back: flags(alloc, loops)?,
        left: room(alloc, loops)?,
        other: room(alloc, loops)?,
        late: room(alloc, loops)?,
        done: room(alloc, loops)?,
        members: room(alloc, loops)?,
        ends: room(alloc, loops)?,
    })
}
