//! One run of `top` over ends in memory, and what is seen of it.
ghost use Rattle.std.specs.Prelude.{◌≡◌, ◌≤◌, length, vec_len, IfOk};

use crate::text::text_of;
use aio_cli::{Answer, top};
use aio_model::{Placed, Script};
use aio_words::{MemDevice, MemSink, MemSource, OpenGate, StepClock};
use script_generator::generate;
use served_check::{check_served, replay};
use std::alloc::Global;
use std::sync::Wait;
use std::test::Fail;
use std::thread::Threads;

/// A script, its text, and as many zeros as its image has bytes.
#[derive(Drop)]
pub struct Stage {
    pub script: Script,
    pub text: String,
    pub opening: Vec<u8>,
    ghost inside: { script.image ≤ length opening.items },
}

/// The calls that fail, of each of the ends.
#[derive(Clone, Copy)]
pub struct Fails<'a> {
    pub reads: &'a [u32],
    pub writes: &'a [u32],
    pub calls: &'a [u32],
}

/// What is seen of a run.
#[derive(Drop)]
pub struct Seen {
    pub answer: Answer,
    pub served: Vec<Placed>,
    pub printed: Vec<u8>,
    pub device: MemDevice,
}

/// 64 requests of eight streams.
pub fn set_up(alloc: Global) -> Result<Stage, Fail> {
    let script = generate(alloc, 64, 1)?;
    let text = text_of(alloc, &script)?;
    let opening = zeros(alloc, script.image)?;
    Ok(Stage {
        script,
        text,
        opening,
    })
}

fn zeros(alloc: Global, len: u64) -> Result<Vec<u8>, Fail>
    ensures { IfOk result (λ bytes. length bytes.items ≡ len) }
{
    Ok(vec![in alloc; 0; len as usize]?)
}

fn clocks(alloc: Global) -> Result<Vec<StepClock>, Fail>
    ensures { IfOk result (λ clocks. vec_len clocks ≡ 16) }
{
    Ok(vec![in alloc; StepClock { now: 0 }; 16]?)
}

/// A run of the script's text over the zeros. The source gives at most 100 bytes a read.
pub fn run<R: Threads + Wait + Sync>(
    rt: &R,
    alloc: Global,
    stage: &Stage,
    fails: Fails,
) -> Result<Seen, Fail> {
    let mut source = MemSource::build(alloc, stage.text.as_bytes(), 100, fails.reads)?;
    let mut sink = MemSink::build(alloc, 1_048_576, fails.writes)?;
    let device = MemDevice::build(alloc, stage.opening.as_slice(), fails.calls)?;
    let end = top(
        rt,
        alloc,
        &[],
        &mut source,
        &mut sink,
        device,
        clocks(alloc)?,
        &OpenGate,
    );
    Ok(Seen {
        answer: end.answer,
        served: end.served,
        printed: Vec::from_slice(alloc, sink.bytes())?,
        device: end.device,
    })
}

/// Whether the replies are a serial history of the script over the zeros.
pub fn is_lawful(alloc: Global, stage: &Stage, seen: &Seen) -> Result<bool, Fail> {
    let opening = stage.opening.as_slice();
    Ok(check_served(alloc, &stage.script, opening, seen.served.as_slice())?)
}

/// Whether the device has the bytes that the replies leave.
pub fn leaves(alloc: Global, stage: &Stage, seen: &Seen) -> Result<bool, Fail> {
    let opening = stage.opening.as_slice();
    let left = replay(alloc, &stage.script, opening, seen.served.as_slice())?;
    Ok(match left {
        Some(bytes) => bytes.as_slice() == seen.device.bytes(),
        None => false,
    })
}
