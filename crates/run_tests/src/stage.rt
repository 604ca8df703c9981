//! One run of `top` on a script, with the test's own device, clocks and gate.
ghost use Rattle.std.specs.Prelude.{◌≡◌, vec_len, IfOk};

use aio_cli::{Answer, top};
use aio_model::Placed;
use aio_words::{Clock, Device, Gate, MemSink, MemSource};
use std::alloc::Global;
use std::sync::Wait;
use std::test::Fail;
use std::thread::Threads;

/// What is seen of a run.
#[derive(Drop)]
pub(crate) struct Seen {
    pub(crate) answer: Answer,
    pub(crate) served: Vec<Placed>,
    /// How many loops have come to their ends.
    pub(crate) loops: usize,
}

/// How many bytes the sink has room for.
const ROOM: u32 = 1_048_576;

/// Sixteen clocks, the first ones being those that are given.
pub(crate) fn sixteen<C: Clone + Drop>(alloc: Global, clock: C) -> Result<Vec<C>, Fail>
    ensures { IfOk result (λ clocks. vec_len clocks ≡ 16) }
{
    Ok(vec![in alloc; clock; 16]?)
}

/// Serves the script.
pub(crate) fn run<
    D: Device + Send + Drop,
    C: Clock + Send + Drop,
    G: Gate + Sync,
    R: Threads + Wait + Sync,
>(rt: &R, alloc: Global, text: &[u8], device: D, clocks: Vec<C>, gate: &G) -> Result<Seen, Fail>
    requires sixteen { vec_len clocks ≡ 16 }
{
    let mut source = MemSource::build(alloc, text, 4_096, &[])?;
    let mut sink = MemSink::build(alloc, ROOM, &[])?;
    let end = top(rt, alloc, &[], &mut source, &mut sink, device, clocks, gate);
    Ok(Seen {
        answer: end.answer,
        loops: end.loops.len(),
        served: end.served,
    })
}
