//! One run of `top` over objects in memory, and what is seen of it.
ghost use Rattle.std.specs.Prelude.{◌≡◌, vec_len, IfOk};

use aio_cli::{Answer, top};
use aio_model::Placed;
use aio_words::{MemDevice, MemSink, MemSource, OpenGate, StepClock};
use std::alloc::Global;
use std::process::Abort;
use std::sync::Wait;
use std::test::Fail;
use std::thread::Threads;

/// The ends that a run is given.
#[derive(Clone, Copy)]
pub struct Ends {
    /// How many bytes one read of the source gives at most, and its calls that fail.
    pub chunk: u32,
    pub reads: &'static [u32],
    /// How many bytes the sink has room for, and its calls that fail.
    pub room: u32,
    pub writes: &'static [u32],
    /// The device's bytes, how many there are, and its calls that fail; call 0 asks for its length.
    pub byte: u8,
    pub len: u32,
    pub calls: &'static [u32],
}

/// Ends that don't fail, and a device of 1 MiB of zeros.
pub const SOUND: Ends = Ends {
    chunk: 4_096,
    reads: &[],
    room: 1_048_576,
    writes: &[],
    byte: 0,
    len: 1_048_576,
    calls: &[],
};

/// What is seen of a run.
#[derive(Drop)]
pub struct Seen {
    pub answer: Answer,
    pub status: u8,
    pub printed: Vec<u8>,
    pub device: Vec<u8>,
    pub served: Vec<Placed>,
    /// How many loops have come to their ends.
    pub loops: usize,
}

/// Words, a text, and what the run answers and prints.
pub type Row = (&'static [&'static str], &'static str, Answer, &'static str);

fn clocks(alloc: Global) -> Result<Vec<StepClock>, Fail>
    ensures { IfOk result (λ clocks. vec_len clocks ≡ 16) }
{
    Ok(vec![in alloc; StepClock { now: 0 }; 16]?)
}

fn device(alloc: Global, ends: Ends) -> Result<MemDevice, Fail> {
    let bytes = vec![in alloc; ends.byte; ends.len as usize]?;
    Ok(MemDevice::build(alloc, bytes.as_slice(), ends.calls)?)
}

fn owned(alloc: Global, words: &[&str]) -> Result<Vec<String>, Fail> {
    let mut given = Vec::new(alloc);
    for word in words {
        given.push(String::from_str(alloc, word)?)?;
    }
    Ok(given)
}

/// A run of this text with these words.
pub fn run<R: Threads + Wait + Sync>(
    rt: &R,
    alloc: Global,
    ends: Ends,
    words: &[&str],
    text: &[u8],
) -> Result<Seen, Fail> {
    let given = owned(alloc, words)?;
    let mut source = MemSource::build(alloc, text, ends.chunk.max(1), ends.reads)?;
    let mut sink = MemSink::build(alloc, ends.room, ends.writes)?;
    let end = top(
        rt,
        alloc,
        given.as_slice(),
        &mut source,
        &mut sink,
        device(alloc, ends)?,
        clocks(alloc)?,
        &OpenGate,
    );
    Ok(Seen {
        answer: end.answer,
        status: end.status(),
        printed: Vec::from_slice(alloc, sink.bytes())?,
        device: Vec::from_slice(alloc, end.device.bytes())?,
        loops: end.loops.len(),
        served: end.served,
    })
}

/// Each run answers and prints what its row says.
pub fn assert_runs<R: Abort + Threads + Wait + Sync>(
    rt: &R,
    alloc: Global,
    ends: Ends,
    rows: &[Row],
) -> Result<(), Fail> {
    for (words, text, answer, printed) in rows {
        let seen = run(rt, alloc, ends, words, text.as_bytes())?;
        assert_eq!(rt; seen.answer, *answer, "{text}");
        assert_eq!(rt; seen.status, answer.status(), "{text}");
        assert_eq!(rt; seen.printed.as_slice(), printed.as_bytes(), "{text}");
    }
    Ok(())
}
