//! The first lines of a generated script and its last ones, and what is printed of a run. All was worked out by hand.
use crate::{Sums, generate, print_gen};
use aio_model::{Bytes, Placed, Reply, Request, Script, Step, Stream, What};
use aio_script::WriteFault;
use aio_words::MemSink;
use std::alloc::Global;
use std::test::Fail;

/// What a line is to say.
#[derive(Clone, Copy, Debug, PartialEq, Eq)]
enum Says {
    /// A write at this place of 64 bytes that count up from this one.
    Write(u64, u8),
    Read(u64),
    Zero(u64),
    Flush,
    Move(u32),
    /// None of these.
    Else,
}

fn said(step: &Step) -> Says {
    match &step.what {
        What::Ask(request) => asked(request),
        What::Move(home) => Says::Move(*home),
        What::Delay(_) => Says::Else,
    }
}

fn asked(request: &Request) -> Says {
    match request {
        Request::Write { at, bytes } => match bytes.as_slice() {
            [first, ..] => written(*at, *first, bytes.as_slice()),
            [] => Says::Else,
        },
        Request::Read { at, len: 64 } => Says::Read(*at),
        Request::Zero { at, len: 8_192 } => Says::Zero(*at),
        Request::Flush => Says::Flush,
        _ => Says::Else,
    }
}

fn written(at: u64, first: u8, bytes: &[u8]) -> Says {
    let mut next = first;
    for byte in bytes {
        if *byte != next {
            return Says::Else;
        }
        next = next.wrapping_add(1);
    }
    if bytes.len() == 64 {
        Says::Write(at, first)
    } else {
        Says::Else
    }
}

/// Whether the script's lines from this one on are of these streams and say this.
fn stands_at(script: &Script, from: usize, wanted: &[(u32, Says)]) -> bool {
    let lines = script.lines.as_slice();
    if from > lines.len() || lines.len() - from < wanted.len() {
        return false;
    }
    for (line, (stream, what)) in lines[from..].iter().zip(wanted) {
        if line.stream != *stream || said(line) != *what {
            return false;
        }
    }
    true
}

/// The numbers behind 1 are 39022, 61087, 20196, 45005, 3882, 21259 and 65216, and a place is sixteen times one.
const FIRST: [(u32, Says); 8] = [
    (0, Says::Write(624_352, 0)),
    (1, Says::Write(977_392, 1)),
    (2, Says::Write(323_136, 2)),
    (3, Says::Read(720_080)),
    (4, Says::Read(62_112)),
    (5, Says::Read(340_144)),
    (6, Says::Zero(1_043_456)),
    (7, Says::Flush),
];

const HOMES: [Stream; 8] = [
    Stream { id: 0, home: 0 },
    Stream { id: 1, home: 1 },
    Stream { id: 2, home: 2 },
    Stream { id: 3, home: 3 },
    Stream { id: 4, home: 0 },
    Stream { id: 5, home: 1 },
    Stream { id: 6, home: 2 },
    Stream { id: 7, home: 3 },
];

#[test]
fn the_first_eight(rt: HostRuntime) -> Result<(), Fail> {
    let script = generate(rt.alloc(), 8, 1)?;
    assert_eq!(rt; (script.image, script.loops), (1_048_576, 4));
    assert!(rt; script.streams.as_slice() == HOMES.as_slice());
    assert_eq!(rt; script.lines.as_slice().len(), 8);
    assert!(rt; stands_at(&script, 0, &FIRST));
    Ok(())
}

/// The least script has one line. Behind 0 comes 13849.
#[test]
fn the_least(rt: HostRuntime) -> Result<(), Fail> {
    let script = generate(rt.alloc(), 1, 0)?;
    assert_eq!(rt; script.lines.as_slice().len(), 1);
    assert!(rt; stands_at(&script, 0, &[(0, Says::Write(221_584, 0))]));
    Ok(())
}

/// There are 4,096 requests and, one behind each sixteen of them, 256 moves. Behind 65535 comes 54212. The request 200
/// stands behind twelve moves, and its bytes pass 255. The last move is the 256th, to the loop 255 mod 4.
#[test]
fn the_greatest(rt: HostRuntime) -> Result<(), Fail> {
    let script = generate(rt.alloc(), 4_096, 65_535)?;
    assert_eq!(rt; script.lines.as_slice().len(), 4_352);
    assert!(rt; stands_at(&script, 0, &[(0, Says::Write(867_392, 0))]));
    assert!(rt; stands_at(&script, 15, &[(7, Says::Flush), (7, Says::Move(0))]));
    assert!(rt; stands_at(&script, 32, &[(7, Says::Flush), (7, Says::Move(1))]));
    assert!(rt; stands_at(&script, 212, &[(0, Says::Write(270_272, 200))]));
    assert!(rt; stands_at(&script, 4_350, &[(7, Says::Flush), (7, Says::Move(3))]));
    Ok(())
}

/// The replies to the first script's requests, in the order of its lines: the zeroing reaches past the image's end.
fn replies(alloc: Global) -> Result<Vec<Placed>, Fail> {
    let mut served = Vec::new(alloc);
    for stream in 0..8 {
        let reply = match stream {
            0..=2 => Reply::Put(64),
            3..=5 => Reply::Got(Bytes::of(vec![in alloc; 7; 64]?)),
            6 => Reply::Einval,
            _ => Reply::Flushed,
        };
        let placed = Placed {
            stream,
            index: 0,
            reply,
        };
        served.push(placed)?;
    }
    Ok(served)
}

/// The sums, where there are no more replies than a script has requests.
fn sums_of(n: u32, from: u32, moved: u32, served: &[Placed]) -> Option<Sums> {
    if served.len() > 4_096 {
        return None;
    }
    Some(Sums::of(n, from, 8, moved, served))
}

const PRINTED: &str = "gen 8 1\nbegun 8 moved 0\nbytes 192 192 0\nend 8 1\n";

#[test]
fn prints_the_sums(rt: HostRuntime) -> Result<(), Fail> {
    let alloc = rt.alloc();
    let served = replies(alloc)?;
    let sums = sums_of(8, 1, 0, served.as_slice()).expect(&rt, "few replies");
    let mut sink = MemSink::build(alloc, 1_000, &[])?;
    assert_eq!(rt; print_gen(&mut sink, &sums), Ok(()));
    assert_eq!(rt; sink.bytes(), PRINTED.as_bytes());
    Ok(())
}

/// A reply that was cut short counts as an error, and its bytes aren't counted.
#[test]
fn sums_of_errors_and_greatest_numbers(rt: HostRuntime) -> Result<(), Fail> {
    let alloc = rt.alloc();
    let mut served = Vec::new(alloc);
    for reply in [
        Reply::Eio(4_096),
        Reply::Zeroed(8_192),
        Reply::Zeroed(4_294_967_295),
    ] {
        let placed = Placed {
            stream: 6,
            index: 0,
            reply,
        };
        served.push(placed)?;
    }
    let sums = sums_of(4_096, 65_535, 4_294_967_295, served.as_slice()).expect(&rt, "few replies");
    let mut sink = MemSink::build(alloc, 1_000, &[])?;
    assert_eq!(rt; print_gen(&mut sink, &sums), Ok(()));
    assert_eq!(rt;
        sink.bytes(),
        b"gen 4096 65535\nbegun 8 moved 4294967295\nbytes 0 0 4294975487\nend 4096 1\n".as_slice()
    );
    Ok(())
}

/// The sink has room for 20 bytes, so that it has a front of the text.
#[test]
fn a_sink_that_is_full(rt: HostRuntime) -> Result<(), Fail> {
    let alloc = rt.alloc();
    let served = replies(alloc)?;
    let sums = sums_of(8, 1, 0, served.as_slice()).expect(&rt, "few replies");
    let mut sink = MemSink::build(alloc, 20, &[])?;
    assert_eq!(rt; print_gen(&mut sink, &sums), Err(WriteFault));
    assert!(rt; PRINTED.as_bytes().starts_with(sink.bytes()));
    Ok(())
}
