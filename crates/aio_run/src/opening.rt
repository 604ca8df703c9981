//! All that the loops of a script take memory for.
ghost use Rattle.std.specs.Prelude.{◌≡◌, ◌≤◌, IfOk, length, replicate, vec_len, vec_capacity, None, []};
ghost use Rattle.aio_script.specs.Image.Bounds.{IsBounded};
ghost use Rattle.co_loop.specs.Working.{CanWork};
ghost use Rattle.aio_run.specs.Readiness.{AreOpen, coroutines_of};

use crate::running::RunEnd;
use aio_model::{NoMemory, Script};
use aio_words::{Clock, Device};
use co_loop::CoWork;
use co_mutex::CoMutex;
use co_state::Origin;
use img_streams::{ImageRule, StreamCo};
use loop_rows::{Opened, open};
use loop_threads::{Hand, Reserved, new_hands, reserve};
use std::alloc::Global;
use std::sync::Wait;

/// The loops of a script with nobody on them, what is to be done on each, and room for their run and its end.
#[derive(Drop)]
pub(crate) struct Loops<C: Origin, K> {
    pub(crate) opened: Opened<C>,
    pub(crate) hands: Vec<Hand<CoWork<C, K>>>,
    pub(crate) reserved: Reserved<C, CoWork<C, K>>,
    /// A place for each stream that has ended.
    pub(crate) berths: Vec<Option<C>>,
    pub(crate) streams: Vec<C>,
    pub(crate) ends: Vec<RunEnd<C>>,
}

fn empty_berths<T: Drop>(alloc: Global, count: usize) -> Result<Vec<Option<T>>, NoMemory>
    ensures { IfOk result (λ berths. berths.items ≡ replicate count None) }
{
    let mut berths = room(alloc, count)?;
    for _ in 0..count {
        berths.push_reserved(None);
    }
    Ok(berths)
}

fn room<T>(alloc: Global, count: usize) -> Result<Vec<T>, NoMemory>
    ensures { IfOk result (λ room. (room.items ≡ []) × (count ≤ vec_capacity room)) }
{
    match Vec::with_capacity(alloc, count) {
        Ok(room) => Ok(room),
        Err(_) => Err(NoMemory),
    }
}

fn streams_in(script: &Script) -> usize
    ensures { result ≡ length script.now.streams }
{
    script.streams.as_slice().len()
}

/// How many coroutines each loop's tables have room for: one for each stream of the script, and at least one.
fn coroutines_for(script: &Script) -> u32
    requires bounded { IsBounded script.now }
    ensures { result ≡ coroutines_of script.now }
{
    (streams_in(script) as u32).max(1)
}

/// What the coroutines of a script's streams are made over: the tables of its loops take states of that alone.
pub(crate) trait Sourced<C: Origin> {
    ghost use Rattle.aio_model.specs.declared.scripts.image_scripts.Script.{Script};

    ghost source: { Self → Script → C.Source };
}

impl<D: Device> Sourced<StreamCo<D>> for CoMutex<ImageRule<D>> {
    ghost use Rattle.img_streams.specs.Streams.{source};

    ghost source = { λ lock script. source lock script };
}

/// Opens the loops of the script, for as many coroutines as it has streams, or for one. The caller picks their origin: that of this lock
/// and this script.
pub(crate) fn open_loops<C: Origin + Drop, K: Clock + Drop, L, R: Wait>(
    rt: &R,
    alloc: Global,
    lock: &L,
    script: &Script,
    clocks: Vec<K>,
) -> Result<Loops<C, K>, NoMemory>
    ghost origin: { C.Source }
    requires bounded { IsBounded script.now }
    requires clocks { vec_len clocks ≡ script.now.loops }
    ensures { IfOk result (λ loops. AreOpen (CanWork C.is_of) script.now origin loops) }
{
    let _ = lock;
    let many = streams_in(script);
    let loops = script.loops as usize;
    let coroutines = coroutines_for(script);
    let opened = open::<C, R>(rt, alloc, loops, coroutines)?;
    let hands = new_hands::<C, K>(alloc, coroutines, clocks)?;
    Ok(Loops {
        opened,
        hands,
        reserved: reserve(alloc, loops)?,
        berths: empty_berths(alloc, many)?,
        streams: room(alloc, many)?,
        ends: room(alloc, loops)?,
    })
}

/// Opens the loops of the script for coroutines that are made over it and the lock.
pub(crate) fn open_for<C: Origin + Drop, K: Clock + Drop, L: Sourced<C>, R: Wait>(
    rt: &R,
    alloc: Global,
    lock: &L,
    script: &Script,
    clocks: Vec<K>,
) -> Result<Loops<C, K>, NoMemory>
    requires bounded { IsBounded script.now }
    requires clocks { vec_len clocks ≡ script.now.loops }
    ensures { IfOk result (λ loops. AreOpen (CanWork C.is_of) script.now (L.source lock.now script.now) loops) }
{
    open_loops::<C, K, L, R>(rt, alloc, lock, script, clocks)
}
