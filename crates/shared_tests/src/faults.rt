//! A device fails at each of its calls in turn.
use crate::stage::{reads, table_of, writes};
use aio_words::Device;
use img_shared::Mark;
use std::alloc::Global;
use std::process::Abort;
use std::test::Fail;

/// Three pieces.
const LONG: u32 = 8200;

/// A call of the device, the stream whose request it serves, and how many bytes were served before. Streams 0, 1 and 2 write,
/// read and flush, and step in rounds: so the flush comes behind the read's first piece.
const CALLS: [(u32, u32, u32); 7] = [
    (0, 0, 0),
    (1, 0, 4096),
    (2, 0, 8192),
    (3, 1, 0),
    (4, 2, 0),
    (5, 1, 4096),
    (6, 1, 8192),
];

/// The mark of a request at which no call fails.
fn good(stream: u32) -> Mark {
    match stream {
        0 => Mark::Put(LONG),
        1 => Mark::Got(LONG),
        _ => Mark::Flushed,
    }
}

/// Whether so many bytes were written, and no other.
fn is_written_to(bytes: &[u8], n: usize) -> bool {
    let mut all = true;
    for (at, byte) in bytes.iter().enumerate() {
        let wanted = if at < n { 7 } else { 0 };
        all = all & (*byte == wanted);
    }
    all
}

fn check(rt: &impl Abort, alloc: Global, call: u32, failing: u32, done: u32) -> Result<(), Fail> {
    let mut table = table_of(alloc, LONG, &[call], &[1, 1, 1])?;
    assert!(rt; writes(alloc, &mut table, 0, 7, LONG)?);
    assert!(rt; reads(alloc, &mut table, 1, LONG)?);
    for _ in 0..12 {
        for stream in 0..3 {
            table.step(stream);
        }
    }
    assert_eq!(rt; table.journal().len(), 3, "call {call}");
    for entry in table.journal() {
        let wanted = if entry.stream == failing {
            Mark::Eio(done)
        } else {
            good(entry.stream)
        };
        assert_eq!(rt; entry.mark, wanted, "call {call}, stream {}", entry.stream);
    }
    let put = if failing == 0 { done } else { LONG } as usize;
    assert!(rt;
        is_written_to(table.into_device().bytes(), put),
        "call {call}"
    );
    Ok(())
}

#[test]
fn one_request_fails_and_no_other(rt: HostRuntime) -> Result<(), Fail> {
    for (call, failing, done) in CALLS {
        check(&rt, rt.alloc(), call, failing, done)?;
    }
    Ok(())
}
