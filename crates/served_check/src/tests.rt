//! Lists of replies, lawful ones and such as break one law. What is expected was worked out by hand.
ghost use Rattle.std.specs.Prelude.{◌≡◌, IfOk};

use crate::{check_served, replay};
use aio_model::{Bytes, Placed, Reply, Request, Script, Step, Steps, Stream, Streams, What};
use std::alloc::{AllocError, Global};
use std::process::Abort;
use std::test::Fail;

/// What a line asks.
#[derive(Clone, Copy, Debug)]
enum Asks {
    Read(u64, u32),
    Write(u64, &'static [u8]),
    Zero(u64, u32),
    Flush,
    Delay,
    Move,
}

/// What came of it.
#[derive(Clone, Copy, Debug)]
enum Came {
    Put(u32),
    Got(&'static [u8]),
    Zeroed(u32),
    Flushed,
    Eio(u32),
    Einval,
}

/// The lines of a script, each with its stream.
type Lines = &'static [(u32, Asks)];

/// Replies, each with its stream and its index.
type Replies = &'static [(u32, u32, Came)];

fn request(alloc: Global, asks: Asks) -> Result<What, AllocError> {
    Ok(match asks {
        Asks::Read(at, len) => What::Ask(Request::Read { at, len }),
        Asks::Write(at, piece) => What::Ask(Request::Write {
            at,
            bytes: Bytes::of(Vec::from_slice(alloc, piece)?),
        }),
        Asks::Zero(at, len) => What::Ask(Request::Zero { at, len }),
        Asks::Flush => What::Ask(Request::Flush),
        Asks::Delay => What::Delay(1_000),
        Asks::Move => What::Move(0),
    })
}

fn reply(alloc: Global, came: Came) -> Result<Reply, AllocError> {
    Ok(match came {
        Came::Put(n) => Reply::Put(n),
        Came::Got(found) => Reply::Got(Bytes::of(Vec::from_slice(alloc, found)?)),
        Came::Zeroed(n) => Reply::Zeroed(n),
        Came::Flushed => Reply::Flushed,
        Came::Eio(k) => Reply::Eio(k),
        Came::Einval => Reply::Einval,
    })
}

fn script(alloc: Global, image: u64, lines: Lines) -> Result<Script, Fail>
    ensures { IfOk result (λ script. script.image ≡ image) }
{
    let mut steps = Vec::new(alloc);
    for (stream, asks) in lines {
        let what = request(alloc, *asks)?;
        steps.push(Step {
            stream: *stream,
            what,
        })?;
    }
    let streams: Vec<Stream> = Vec::new(alloc);
    Ok(Script {
        image,
        loops: 1,
        streams: Streams::of(streams),
        lines: Steps::of(steps),
    })
}

fn served(alloc: Global, replies: Replies) -> Result<Vec<Placed>, Fail> {
    let mut served = Vec::new(alloc);
    for (stream, index, came) in replies {
        let reply = reply(alloc, *came)?;
        served.push(Placed {
            stream: *stream,
            index: *index,
            reply,
        })?;
    }
    Ok(served)
}

/// Whether these are replies to the lines' requests over zeros, as many as the image has and some more.
fn judge(
    alloc: Global,
    image: u32,
    more: u32,
    lines: Lines,
    replies: Replies,
) -> Result<bool, Fail> {
    let opening = vec![in alloc; 0; image as usize + more as usize]?;
    let script = script(alloc, image as u64, lines)?;
    let served = served(alloc, replies)?;
    Ok(check_served(alloc, &script, opening.as_slice(), served.as_slice())?)
}

/// Each list beside whether it is lawful.
fn assert_judged(
    rt: &impl Abort,
    alloc: Global,
    image: u32,
    lines: Lines,
    rows: &[(&str, Replies, bool)],
) -> Result<(), Fail> {
    for (name, replies, lawful) in rows {
        for more in [0, 4] {
            assert_eq!(rt;
                judge(alloc, image, more, lines, replies)?,
                *lawful,
                "{name}"
            );
        }
    }
    Ok(())
}

const FIRST: Lines = &[
    (0, Asks::Write(2, b"hi")),
    (0, Asks::Read(0, 6)),
    (0, Asks::Flush),
];

const FIRST_ROWS: [(&str, Replies, bool); 12] = [
    (
        "all in order",
        &[
            (0, 0, Came::Put(2)),
            (0, 1, Came::Got(b"\0\0hi\0\0")),
            (0, 2, Came::Flushed),
        ],
        true,
    ),
    (
        "the first two exchanged",
        &[
            (0, 1, Came::Got(b"\0\0hi\0\0")),
            (0, 0, Came::Put(2)),
            (0, 2, Came::Flushed),
        ],
        false,
    ),
    (
        "the first twice",
        &[
            (0, 0, Came::Put(2)),
            (0, 0, Came::Put(2)),
            (0, 1, Came::Got(b"\0\0hi\0\0")),
        ],
        false,
    ),
    (
        "the last left out",
        &[(0, 0, Came::Put(2)), (0, 1, Came::Got(b"\0\0hi\0\0"))],
        false,
    ),
    (
        "one in the middle left out",
        &[(0, 0, Came::Put(2)), (0, 2, Came::Flushed)],
        false,
    ),
    (
        "one more than all",
        &[
            (0, 0, Came::Put(2)),
            (0, 1, Came::Got(b"\0\0hi\0\0")),
            (0, 2, Came::Flushed),
            (0, 3, Came::Flushed),
        ],
        false,
    ),
    (
        "of another stream",
        &[
            (0, 0, Came::Put(2)),
            (0, 1, Came::Got(b"\0\0hi\0\0")),
            (1, 0, Came::Flushed),
        ],
        false,
    ),
    (
        "another byte",
        &[
            (0, 0, Came::Put(2)),
            (0, 1, Came::Got(b"\0\0ho\0\0")),
            (0, 2, Came::Flushed),
        ],
        false,
    ),
    (
        "a byte too few",
        &[
            (0, 0, Came::Put(2)),
            (0, 1, Came::Got(b"\0\0hi\0")),
            (0, 2, Came::Flushed),
        ],
        false,
    ),
    (
        "another number of bytes",
        &[
            (0, 0, Came::Put(1)),
            (0, 1, Came::Got(b"\0\0hi\0\0")),
            (0, 2, Came::Flushed),
        ],
        false,
    ),
    (
        "a reply of another kind",
        &[
            (0, 0, Came::Put(2)),
            (0, 1, Came::Put(6)),
            (0, 2, Came::Flushed),
        ],
        false,
    ),
    (
        "no byte was put",
        &[
            (0, 0, Came::Eio(0)),
            (0, 1, Came::Got(b"\0\0\0\0\0\0")),
            (0, 2, Came::Eio(0)),
        ],
        true,
    ),
];

#[test]
fn a_stream_in_order(rt: HostRuntime) -> Result<(), Fail> {
    assert_judged(&rt, rt.alloc(), 16, FIRST, &FIRST_ROWS)
}

/// A write, and reads by another stream and by its own. The delay and the move have no index.
const TWO: Lines = &[
    (0, Asks::Write(0, &[0xaa])),
    (1, Asks::Delay),
    (1, Asks::Read(0, 1)),
    (0, Asks::Move),
    (0, Asks::Read(0, 1)),
];

const TWO_ROWS: [(&str, Replies, bool); 6] = [
    (
        "the other stream second",
        &[
            (0, 0, Came::Put(1)),
            (1, 0, Came::Got(&[0xaa])),
            (0, 1, Came::Got(&[0xaa])),
        ],
        true,
    ),
    (
        "the other stream last",
        &[
            (0, 0, Came::Put(1)),
            (0, 1, Came::Got(&[0xaa])),
            (1, 0, Came::Got(&[0xaa])),
        ],
        true,
    ),
    (
        "the other stream first",
        &[
            (1, 0, Came::Got(&[0])),
            (0, 0, Came::Put(1)),
            (0, 1, Came::Got(&[0xaa])),
        ],
        true,
    ),
    (
        "what was there before",
        &[
            (0, 0, Came::Put(1)),
            (1, 0, Came::Got(&[0])),
            (0, 1, Came::Got(&[0xaa])),
        ],
        false,
    ),
    (
        "what isn't there yet",
        &[
            (1, 0, Came::Got(&[0xaa])),
            (0, 0, Came::Put(1)),
            (0, 1, Came::Got(&[0xaa])),
        ],
        false,
    ),
    (
        "an index of the other stream",
        &[
            (0, 0, Came::Put(1)),
            (1, 1, Came::Got(&[0xaa])),
            (0, 1, Came::Got(&[0xaa])),
        ],
        false,
    ),
];

#[test]
fn streams_that_take_turns(rt: HostRuntime) -> Result<(), Fail> {
    assert_judged(&rt, rt.alloc(), 4, TWO, &TWO_ROWS)
}

/// Five thousand bytes are one whole piece of 4,096 and a rest.
const LONG: Lines = &[
    (0, Asks::Write(0, &[0xff; 5_000])),
    (0, Asks::Read(4_095, 2)),
    (0, Asks::Zero(4_095, 1)),
];

const LONG_ROWS: [(&str, Replies, bool); 7] = [
    (
        "all was put",
        &[
            (0, 0, Came::Put(5_000)),
            (0, 1, Came::Got(&[0xff, 0xff])),
            (0, 2, Came::Zeroed(1)),
        ],
        true,
    ),
    (
        "one piece was put",
        &[
            (0, 0, Came::Eio(4_096)),
            (0, 1, Came::Got(&[0xff, 0])),
            (0, 2, Came::Zeroed(1)),
        ],
        true,
    ),
    (
        "and not one byte more",
        &[
            (0, 0, Came::Eio(4_096)),
            (0, 1, Came::Got(&[0xff, 0xff])),
            (0, 2, Came::Zeroed(1)),
        ],
        false,
    ),
    (
        "part of a piece",
        &[
            (0, 0, Came::Eio(4_095)),
            (0, 1, Came::Got(&[0, 0])),
            (0, 2, Came::Zeroed(1)),
        ],
        false,
    ),
    (
        "more pieces than there are",
        &[
            (0, 0, Came::Eio(8_192)),
            (0, 1, Came::Got(&[0xff, 0xff])),
            (0, 2, Came::Zeroed(1)),
        ],
        false,
    ),
    (
        "a fault behind all bytes",
        &[
            (0, 0, Came::Put(5_000)),
            (0, 1, Came::Got(&[0xff, 0xff])),
            (0, 2, Came::Eio(4_096)),
        ],
        false,
    ),
    (
        "it isn't past the end",
        &[
            (0, 0, Came::Einval),
            (0, 1, Came::Got(&[0, 0])),
            (0, 2, Came::Zeroed(1)),
        ],
        false,
    ),
];

#[test]
fn faults_in_a_long_request(rt: HostRuntime) -> Result<(), Fail> {
    assert_judged(&rt, rt.alloc(), 5_000, LONG, &LONG_ROWS)
}

/// Up to the image's end and past it, and a place with which a sum would wrap.
const ENDS: Lines = &[
    (0, Asks::Read(8, 8)),
    (0, Asks::Read(9, 8)),
    (0, Asks::Read(16, 0)),
    (0, Asks::Read(17, 0)),
    (0, Asks::Zero(18_446_744_073_709_551_615, 1)),
];

const ENDS_ROWS: [(&str, Replies, bool); 3] = [
    (
        "refused just past the end",
        &[
            (0, 0, Came::Got(b"\0\0\0\0\0\0\0\0")),
            (0, 1, Came::Einval),
            (0, 2, Came::Got(b"")),
            (0, 3, Came::Einval),
            (0, 4, Came::Einval),
        ],
        true,
    ),
    (
        "bytes past the image",
        &[
            (0, 0, Came::Got(b"\0\0\0\0\0\0\0\0")),
            (0, 1, Came::Got(b"\0\0\0\0\0\0\0\0")),
            (0, 2, Came::Got(b"")),
            (0, 3, Came::Einval),
            (0, 4, Came::Einval),
        ],
        false,
    ),
    (
        "a fault past the image",
        &[
            (0, 0, Came::Got(b"\0\0\0\0\0\0\0\0")),
            (0, 1, Came::Eio(0)),
            (0, 2, Came::Got(b"")),
            (0, 3, Came::Einval),
            (0, 4, Came::Einval),
        ],
        false,
    ),
];

#[test]
fn requests_at_the_end_of_the_image(rt: HostRuntime) -> Result<(), Fail> {
    assert_judged(&rt, rt.alloc(), 16, ENDS, &ENDS_ROWS)
}

const NONE: Lines = &[];

const NONE_ROWS: [(&str, Replies, bool); 2] = [
    ("no reply", &[], true),
    ("a reply to nothing", &[(0, 0, Came::Flushed)], false),
];

/// A script that asks nothing has one history.
#[test]
fn nothing_is_asked(rt: HostRuntime) -> Result<(), Fail> {
    assert_judged(&rt, rt.alloc(), 16, NONE, &NONE_ROWS)
}

const LEAVING: Lines = &[(3, Asks::Write(2, b"hi")), (3, Asks::Zero(5, 2))];

const LAWFUL: Replies = &[(3, 0, Came::Put(2)), (3, 1, Came::Zeroed(2))];

const UNLAWFUL: Replies = &[(3, 0, Came::Put(2)), (3, 1, Came::Zeroed(3))];

/// What is left of eight sevens.
fn left(alloc: Global, replies: Replies) -> Result<Option<Vec<u8>>, Fail> {
    let opening = [7; 8];
    let script = script(alloc, 8, LEAVING)?;
    let served = served(alloc, replies)?;
    Ok(replay(alloc, &script, opening.as_slice(), served.as_slice())?)
}

#[test]
fn the_bytes_that_are_left(rt: HostRuntime) -> Result<(), Fail> {
    let bytes = left(rt.alloc(), LAWFUL)?.expect(&rt, "a lawful list leaves bytes");
    assert_eq!(rt; bytes.as_slice(), [7, 7, 104, 105, 7, 0, 0, 7].as_slice());
    assert!(rt; left(rt.alloc(), UNLAWFUL)?.is_none());
    Ok(())
}
