//! The generated script, line by line.
ghost use Rattle.std.specs.Prelude.{◌≡◌, ◌++◌, ◌∷◌, [], ◌≤◌, ◌<◌, ◌+◌, IfOk};
ghost use Rattle.aio_script.specs.Image.Bounds.{IsBounded};
ghost use Rattle.script_generator.specs.Generated.{ask_line, bytes_to, drawn, drawn_after, generated, lines_to, move_lines, request_at, streams_to};
ghost use Rattle.aio_model.specs.declared.scripts.image_scripts.What.TheVariants.{Ask};

use aio_model::{Bytes, NoMemory, Request, Script, Step, Steps, Stream, Streams, What};
use std::alloc::Global;

/// How many bytes of image the script asks for.
const IMAGE: u64 = 1_048_576;

const LOOPS: u32 = 4;

const STREAMS: u32 = 8;

/// How many bytes a generated write puts, and a read gets.
const PIECE: u32 = 64;

/// How many bytes a generated request makes zero.
const ZEROED: u32 = 8_192;

/// The script of `n` requests whose places begin at the number `from`. Takes memory for its lines and their bytes.
/// A request of it may reach past the image's end.
pub fn generate(alloc: Global, n: u32, from: u32) -> Result<Script, NoMemory>
    requires some { 1 ≤ n }
    requires few { n ≤ 4096 }
    requires from { from ≤ 65535 }
    ensures script { IfOk result (λ script. script ≡ generated n from) }
    ensures bounded { IfOk result IsBounded }
{
    make_script(alloc, n, from)
}

fn make_script(alloc: Global, n: u32, from: u32) -> Result<Script, NoMemory>
    requires few { n ≤ 4096 }
    requires from { from ≤ 65535 }
    ensures { IfOk result (λ script. script ≡ generated n from) }
{
    Ok(Script {
        image: IMAGE,
        loops: LOOPS,
        streams: Streams::of(streams(alloc, STREAMS)?),
        lines: Steps::of(lines(alloc, n, from)?),
    })
}

fn streams(alloc: Global, count: u32) -> Result<Vec<Stream>, NoMemory>
    ensures { IfOk result (λ streams. streams.items ≡ streams_to count) }
{
    let mut streams = Vec::new(alloc);
    for id in 0..count {
        let home = id % LOOPS;
        push(&mut streams, Stream { id, home })?;
    }
    Ok(streams)
}

fn lines(alloc: Global, n: u32, from: u32) -> Result<Vec<Step>, NoMemory>
    requires few { n ≤ 4096 }
    requires from { from ≤ 65535 }
    ensures { IfOk result (λ lines. lines.items ≡ lines_to from n) }
{
    let mut lines = Vec::new(alloc);
    let mut x = from;
    for k in 0..n {
        x = drawn_after(x);
        push_request(alloc, &mut lines, k, x)?;
    }
    Ok(lines)
}

fn drawn_after(x: u32) -> u32
    requires { x ≤ 65535 }
    ensures value { result ≡ drawn_after x }
    ensures small { result ≤ 65535 }
{
    (25_173 * x + 13_849) % 65_536
}

/// Puts the line of the k-th request behind the others, and behind it the line of the move, if one follows.
fn push_request(alloc: Global, lines: &mut Vec<Step>, k: u32, x: u32) -> Result<(), NoMemory>
    requires index { k ≤ 4096 }
    requires number { x ≤ 65535 }
    ensures { IfOk result (λ _. lines.new.items ≡ (lines.old.items ++ ask_line k x ∷ []) ++ move_lines k) }
{
    let request = request(alloc, k, 16 * u64::from(x))?;
    push_step(lines, k % STREAMS, What::Ask(request))?;
    push_move(lines, k)
}

fn push_move(lines: &mut Vec<Step>, k: u32) -> Result<(), NoMemory>
    ensures { IfOk result (λ _. lines.new.items ≡ lines.old.items ++ move_lines k) }
{
    if k % 16 == 15 {
        push_step(lines, STREAMS - 1, What::Move((k / 16) % LOOPS))?;
    }
    Ok(())
}

fn push_step(lines: &mut Vec<Step>, stream: u32, what: What) -> Result<(), NoMemory>
    ensures { IfOk result (λ _. lines.new.items ≡ lines.old.items ++ record { stream = stream; what = what } ∷ []) }
{
    push(lines, Step { stream, what })
}

/// What the k-th request asks at this place.
fn request(alloc: Global, k: u32, at: u64) -> Result<Request, NoMemory>
    requires { k ≤ 4096 }
    ensures { IfOk result (λ request. request ≡ request_at k at) }
{
    Ok(match k % 8 {
        0..=2 => Request::Write {
            at,
            bytes: Bytes::of(bytes(alloc, k, PIECE)?),
        },
        3..=5 => Request::Read { at, len: PIECE },
        6 => Request::Zero { at, len: ZEROED },
        _ => Request::Flush,
    })
}

/// What the k-th request writes.
fn bytes(alloc: Global, k: u32, count: u32) -> Result<Vec<u8>, NoMemory>
    requires index { k ≤ 4096 }
    requires few { count ≤ 4096 }
    ensures { IfOk result (λ bytes. bytes.items ≡ bytes_to k count) }
{
    let mut bytes = Vec::new(alloc);
    for j in 0..count {
        push(&mut bytes, ((k + j) % 256) as u8)?;
    }
    Ok(bytes)
}

fn push<T: Drop>(items: &mut Vec<T>, item: T) -> Result<(), NoMemory>
    ensures { IfOk result (λ _. items.new.items ≡ items.old.items ++ item ∷ []) }
{
    match items.push(item) {
        Ok(()) => Ok(()),
        Err(_) => Err(NoMemory),
    }
}
