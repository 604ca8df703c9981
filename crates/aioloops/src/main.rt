//! Serves a script of reads, writes, zeroings and flushes on a raw file, or on an image of zeros in memory.
#![tactic(auto)]

ghost use Rattle.std.specs.Prelude.{◌≡◌, map, string_bytes, vec_len, IfOk};
ghost use Rattle.program_words.specs.Words.{image_key, value_said};
ghost use Rattle.aioloops.specs.Devices.{IsMemory, IsNamedDevice};

use aio_cli::{Answer, print_fault, top};
use aio_words::{MemDevice, NoMemory, OpenGate, StdSink, StdSource};
use program_words::image_word;
use real_ends::{AnyDevice, FileDevice, SystemClock};
use std::alloc::Global;
use std::io::ErrorKind;
use std::process::ExitCode;
use std::sync::Wait;
use std::thread::Threads;
use std::{env, io};

/// How many bytes the device has where no word names a file.
const DEVICE: u32 = 1_048_576;

const CLOCKS: usize = 16;

fn main(rt: HostRuntime) -> ExitCode {
    let Ok(mut errors) = StdSink::errors(rt.stderr()) else {
        return ExitCode::from(Answer::NoMemory.status());
    };
    let answer = match words(&rt) {
        Ok(words) => run(&rt, &rt, words.as_slice()).unwrap_or(Answer::NoMemory),
        Err(error) => match error.kind() {
            ErrorKind::OutOfMemory => Answer::NoMemory,
            _ => Answer::Usage,
        },
    };
    // The status says it too, so nothing is made of a line that can't be printed.
    let _ = print_fault(&mut errors, &answer);
    ExitCode::from(answer.status())
}

/// The words of the command line behind the program's name.
fn words(rt: &HostRuntime) -> io::Result<Vec<String>> {
    Ok(env::args(rt)?.skip(1).collect(rt.alloc())?)
}

/// Runs the program, and tells how that ended. `threads` is the leave to start the loops' threads and to wait for them.
fn run<R: Threads + Wait + Sync>(
    threads: &R,
    rt: &HostRuntime,
    words: &[String],
) -> Result<Answer, NoMemory> {
    let mut source = StdSource::build(rt.stdin())?;
    let mut sink = StdSink::output(rt.stdout())?;
    let device = device(rt, words)?;
    let clocks = clocks(rt)?;
    let end = top(
        threads,
        rt.alloc(),
        words,
        &mut source,
        &mut sink,
        device,
        clocks,
        &OpenGate,
    );
    Ok(end.answer)
}

/// The raw file whose path stands in the words, opened for reading and writing, or else zeros in memory. A file that
/// can't be opened gives a device that fails at each call.
fn device(rt: &HostRuntime, words: &[String]) -> Result<AnyDevice, NoMemory>
    ensures { IfOk result (IsNamedDevice 1048576 (value_said image_key (map string_bytes words.now))) }
{
    match image_word(words) {
        Some(path) => Ok(AnyDevice::File(FileDevice::open(rt, path)?)),
        None => zeros(rt.alloc(), DEVICE),
    }
}

fn zeros(alloc: Global, len: u32) -> Result<AnyDevice, NoMemory>
    ensures { IfOk result (IsMemory len) }
{
    Ok(AnyDevice::Mem(MemDevice::zeros(alloc, len)?))
}

/// A clock of the machine for each loop that a script may have.
fn clocks(rt: &HostRuntime) -> Result<Vec<SystemClock<&HostRuntime>>, NoMemory>
    ensures { IfOk result (λ clocks. vec_len clocks ≡ 16) }
{
    let mut clocks = Vec::new(rt.alloc());
    for _ in 0..CLOCKS {
        let clock = SystemClock::build(rt)?;
        if clocks.push(clock).is_err() {
            return Err(NoMemory);
        }
    }
    Ok(clocks)
}
