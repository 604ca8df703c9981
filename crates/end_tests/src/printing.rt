//! Replies in orders that were worked out by hand, and the text that is printed of them.
use crate::stage::{printed, script_of, zeros};
use aio_model::{Bytes, Placed, Reply};
use served_check::check_served;
use std::alloc::{AllocError, Global};
use std::process::Abort;
use std::test::Fail;

/// What came of a request.
#[derive(Clone, Copy, Debug)]
enum Came {
    Put(u32),
    Got(&'static [u8]),
    Zeroed(u32),
    Flushed,
    Einval,
}

/// Replies, each with its stream and its index, and what is printed of them.
type Row = (&'static [(u32, u32, Came)], &'static [u8]);

fn reply(alloc: Global, came: Came) -> Result<Reply, AllocError> {
    Ok(match came {
        Came::Put(n) => Reply::Put(n),
        Came::Got(found) => Reply::Got(Bytes::of(Vec::from_slice(alloc, found)?)),
        Came::Zeroed(n) => Reply::Zeroed(n),
        Came::Flushed => Reply::Flushed,
        Came::Einval => Reply::Einval,
    })
}

fn replies(alloc: Global, rows: &[(u32, u32, Came)]) -> Result<Vec<Placed>, AllocError> {
    let mut served = Vec::with_capacity(alloc, rows.len())?;
    for (stream, index, came) in rows {
        served.push(Placed {
            stream: *stream,
            index: *index,
            reply: reply(alloc, *came)?,
        })?;
    }
    Ok(served)
}

/// Replies that are a serial history of the script over zeros are printed so.
fn assert_prints<R: Abort>(rt: &R, alloc: Global, text: &[u8], row: Row) -> Result<(), Fail> {
    let script = script_of(rt, alloc, text);
    let served = replies(alloc, row.0)?;
    let opening = zeros(alloc, script.image)?;
    if !check_served(alloc, &script, opening.as_slice(), served.as_slice())? {
        panic!(rt; "the replies are a serial history");
    }
    let found = printed(alloc, &script, served.as_slice())?;
    assert_eq!(rt; found.as_slice(), row.1);
    Ok(())
}

/// One stream writes a byte and reads it, and another one reads it.
const TWO: &[u8] =
    b"image 1\nloops 1\nstream 0 0\nstream 1 0\n0 write 0 aa\n1 read 0 1\n0 read 0 1\n";

const ROWS_OF_TWO: [Row; 3] = [
    (
        &[
            (0, 0, Came::Put(1)),
            (1, 0, Came::Got(b"\xaa")),
            (0, 1, Came::Got(b"\xaa")),
        ],
        b"0 0 write ok 1\n1 1 read ok aa\n2 0 read ok aa\nend 3 0\n",
    ),
    (
        &[
            (0, 0, Came::Put(1)),
            (0, 1, Came::Got(b"\xaa")),
            (1, 0, Came::Got(b"\xaa")),
        ],
        b"0 0 write ok 1\n2 1 read ok aa\n1 0 read ok aa\nend 3 0\n",
    ),
    (
        &[
            (1, 0, Came::Got(b"\0")),
            (0, 0, Came::Put(1)),
            (0, 1, Came::Got(b"\xaa")),
        ],
        b"1 0 write ok 1\n0 1 read ok 00\n2 0 read ok aa\nend 3 0\n",
    ),
];

#[test]
fn places_of_two_streams_in_each_order(rt: HostRuntime) -> Result<(), Fail> {
    for row in ROWS_OF_TWO {
        assert_prints(&rt, rt.alloc(), TWO, row)?;
    }
    Ok(())
}

/// Four streams, with a pause and a move between their requests.
const FOUR: &[u8] = b"image 2
loops 2
stream 0 0
stream 63 0
stream 5 0
stream 7 0
63 flush
5 write 0 01
5 delay 10
0 read 0 1
7 flush
63 move 1
63 zero 0 2
5 read 4096 1
0 flush
";

const ROW_OF_FOUR: Row = (
    &[
        (7, 0, Came::Flushed),
        (5, 0, Came::Put(1)),
        (5, 1, Came::Einval),
        (63, 0, Came::Flushed),
        (0, 0, Came::Got(b"\x01")),
        (63, 1, Came::Zeroed(2)),
        (0, 1, Came::Flushed),
    ],
    b"3 63 flush ok\n1 5 write ok 1\n4 0 read ok 01\n0 7 flush ok\n5 63 zero ok 2\n2 5 read einval\n6 0 flush ok\nend 7 1\n",
);

#[test]
fn places_of_four_streams(rt: HostRuntime) -> Result<(), Fail> {
    assert_prints(&rt, rt.alloc(), FOUR, ROW_OF_FOUR)
}
