//! 64 streams read and write one block in turns.
use crate::stage::{is_lawful, script_of, serve, serve_woken, zeros};
use aio_words::MemDevice;
use std::alloc::{AllocError, Global};
use std::test::Fail;

const STREAMS: u32 = 64;

/// How many requests each has.
const TURNS: u32 = 4;

/// How many bytes the block has.
const BLOCK: u32 = 64;

/// The stream writes the block full of a byte of its own.
fn put_write(alloc: Global, text: &mut String, stream: u32) -> Result<(), AllocError> {
    text.push_str(format!(in alloc; "{stream} write 0 ")?.as_str())?;
    let byte = format!(in alloc; "{stream:02x}")?;
    for _ in 0..BLOCK {
        text.push_str(byte.as_str())?;
    }
    text.push_str("\n")
}

/// The request of a stream in this turn: streams of even numbers begin with a write, the others with a read.
fn put_request(alloc: Global, text: &mut String, stream: u32, turn: u32) -> Result<(), AllocError> {
    if stream % 2 == turn % 2 {
        put_write(alloc, text, stream)
    } else {
        text.push_str(format!(in alloc; "{stream} read 0 {BLOCK}\n")?.as_str())
    }
}

/// The script of all streams.
fn text_of_all(alloc: Global) -> Result<String, AllocError> {
    let mut text = format!(in alloc; "image {BLOCK}\nloops 1\n")?;
    for stream in 0..STREAMS {
        text.push_str(format!(in alloc; "stream {stream} 0\n")?.as_str())?;
    }
    for turn in 0..TURNS {
        for stream in 0..STREAMS {
            put_request(alloc, &mut text, stream, turn)?;
        }
    }
    Ok(text)
}

#[test]
fn each_read_finds_the_last_write(rt: HostRuntime) -> Result<(), Fail> {
    let alloc = rt.alloc();
    let text = text_of_all(alloc)?;
    let script = script_of(&rt, alloc, text.as_bytes());
    let opening = zeros(alloc, script.image)?;
    let device = MemDevice::build(alloc, opening.as_slice(), &[])?;
    let done = serve(&rt, alloc, &script, device);
    assert!(rt; is_lawful(alloc, &script, done.served.as_slice(), done.device.bytes())?);
    Ok(())
}

/// By wakes alone: none is lost, and the last stream asks its home to quit.
#[test]
fn no_wake_is_lost(rt: HostRuntime) -> Result<(), Fail> {
    let alloc = rt.alloc();
    let text = text_of_all(alloc)?;
    let script = script_of(&rt, alloc, text.as_bytes());
    let opening = zeros(alloc, script.image)?;
    let device = MemDevice::build(alloc, opening.as_slice(), &[])?;
    let carried = serve_woken(&rt, alloc, &script, device);
    assert_eq!(rt; carried.tally.left, 0);
    assert_eq!(rt; carried.tally.quits, 1);
    let done = carried.done;
    assert!(rt; is_lawful(alloc, &script, done.served.as_slice(), done.device.bytes())?);
    Ok(())
}
