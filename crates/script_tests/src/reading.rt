//! What the reader says of scripts.
use crate::refused::{Kind, Many, Row, assert_many_refused, assert_refused};
use aio_script::ScriptRefusal::{BadLine, BadNumber, NoHeader, OutOfLimit, UnknownStream};
use aio_script::{Bytes, Request, Step, Stream, What, read_script};
use std::test::Fail;

/// Whole texts.
const HEADERS: [Row; 34] = [
    ("", Some(NoHeader)),
    ("\n\n#\n", Some(NoHeader)),
    ("#image 1\n", Some(NoHeader)),
    ("loops 1\nimage 1\n", Some(NoHeader)),
    ("version 1\n", Some(NoHeader)),
    ("Image 1\n", Some(NoHeader)),
    ("image 16\n", Some(NoHeader)),
    ("image 16\n# loops 1\n\n", Some(NoHeader)),
    ("image 16\nimage 16\n", Some(NoHeader)),
    ("image 16\nstream 0 0\n", Some(NoHeader)),
    ("image 16\nloops 3", None),
    ("image 16\nloops 3\n", None),
    ("# a\n\nimage 16\n#\n\nloops 16\n#", None),
    ("image 16\r\nloops 1\n", Some(BadLine(1))),
    (" image 16\nloops 1\n", Some(BadLine(1))),
    ("image  16\nloops 1\n", Some(BadLine(1))),
    ("image 16 \nloops 1\n", Some(BadLine(1))),
    ("image\n", Some(BadLine(1))),
    ("image 1 2\n", Some(BadLine(1))),
    (" \n", Some(BadLine(1))),
    ("\n#\nimage\t16\n", Some(BadLine(3))),
    ("image x\nloops 0\n", Some(BadNumber(1))),
    ("image -1\n", Some(BadNumber(1))),
    ("image 99999999999999999999\n", Some(BadNumber(1))),
    ("image 1048576\nloops 1\n", None),
    ("image 1048577\nloops 1\n", Some(OutOfLimit(1))),
    ("image 0\nloops 1\n", None),
    ("image 1048577\n", Some(OutOfLimit(1))),
    ("image 16\nloops 0\n", Some(OutOfLimit(2))),
    ("image 16\nloops 17\n", Some(OutOfLimit(2))),
    ("image 16\nloops 0x1\n", Some(BadNumber(2))),
    ("image 16\nloops\n", Some(BadLine(2))),
    ("image 16\nloops  1\n", Some(BadLine(2))),
    (
        "image 16\nloops 1\n\n0 flush\nstream 0 0\n",
        Some(UnknownStream(4)),
    ),
];

/// Lines behind a header of four lines.
const LINES: [Row; 75] = [
    ("stream 1 1", None),
    ("stream 63 0", None),
    ("stream 64 0", Some(OutOfLimit(5))),
    ("stream 1 2", Some(OutOfLimit(5))),
    ("stream 0 1", Some(BadLine(5))),
    ("stream 00 9", Some(BadLine(5))),
    ("stream 0 x", Some(BadNumber(5))),
    ("stream x 0", Some(BadNumber(5))),
    ("stream 1", Some(BadLine(5))),
    ("stream 1 1 1", Some(BadLine(5))),
    ("stream", Some(BadLine(5))),
    ("stream 18446744073709551616 0", Some(BadNumber(5))),
    ("stream 18446744073709551615 0", Some(OutOfLimit(5))),
    ("image 16", Some(BadLine(5))),
    ("loops 1", Some(BadLine(5))),
    ("version 1", Some(BadLine(5))),
    ("image read 0 0", Some(BadLine(5))),
    ("loops delay 1", Some(BadLine(5))),
    ("0 read 18446744073709551615 6", None),
    ("0 read 18446744073709551616 6", Some(BadNumber(5))),
    ("0 read 00000000000000000001 6", None),
    ("0 read 000000000000000000001 6", Some(BadNumber(5))),
    ("0 read 0 65536", None),
    ("0 read 0 65537", Some(OutOfLimit(5))),
    ("0 read 0 -1", Some(BadNumber(5))),
    ("0 read +1 1", Some(BadNumber(5))),
    ("0 read - 1", Some(BadNumber(5))),
    ("x read 0 1", Some(BadNumber(5))),
    ("read read 0 70000", Some(BadNumber(5))),
    ("0 read 0", Some(BadLine(5))),
    ("0 read 0 1 2", Some(BadLine(5))),
    ("0 read  0 6", Some(BadLine(5))),
    ("0 read 0 6 ", Some(BadLine(5))),
    (" 0 read 0 6", Some(BadLine(5))),
    ("0 read 0 6\r", Some(BadLine(5))),
    ("0\tflush", Some(BadLine(5))),
    ("0 flu\0sh", Some(BadLine(5))),
    ("0 flush\x7f", Some(BadLine(5))),
    ("0 flush\u{80}", Some(BadLine(5))),
    ("0 flush 0", Some(BadLine(5))),
    ("0 Flush", Some(BadLine(5))),
    ("0", Some(BadLine(5))),
    ("flush", Some(BadLine(5))),
    ("0 write 0 -", None),
    ("0 write 0 aAbB09fF", None),
    ("0 write 0 FF", None),
    ("0 write 0 686", Some(BadNumber(5))),
    ("0 write 0 6g", Some(BadNumber(5))),
    ("0 write 0 --", Some(BadNumber(5))),
    ("0 write 0 0", Some(BadNumber(5))),
    ("0 write 0", Some(BadLine(5))),
    ("0 write 0 ", Some(BadLine(5))),
    ("0 write x 6g", Some(BadNumber(5))),
    ("0 zero 0 65536", None),
    ("0 zero 0 65537", Some(OutOfLimit(5))),
    ("0 delay 1000000000", None),
    ("0 delay 1000000001", Some(OutOfLimit(5))),
    ("0 delay", Some(BadLine(5))),
    ("0 move 1", None),
    ("0 move 2", Some(OutOfLimit(5))),
    ("0 move -", Some(BadNumber(5))),
    ("0 move 1 1", Some(BadLine(5))),
    ("1 flush", Some(UnknownStream(5))),
    ("1 read 0 6", Some(UnknownStream(5))),
    ("1 read 0 65537", Some(OutOfLimit(5))),
    ("1 read x 65537", Some(BadNumber(5))),
    ("64 flush", Some(UnknownStream(5))),
    ("1 delay 1000000001", Some(OutOfLimit(5))),
    ("1 move 2", Some(OutOfLimit(5))),
    ("1 move 1", Some(UnknownStream(5))),
    ("18446744073709551615 flush", Some(UnknownStream(5))),
    ("18446744073709551616 flush", Some(BadNumber(5))),
    ("#\n\n0 flush\n0 flus\n1 flush", Some(BadLine(8))),
    ("0 flush\n\n1 flush\nx", Some(UnknownStream(7))),
    ("1 flush\nstream 1 0", Some(UnknownStream(5))),
];

/// Lines behind a header of three lines.
const PAST: [Many; 12] = [
    (4_096, "0 flush\n", "", None),
    (4_096, "0 flush\n", "0 flush", Some(OutOfLimit(4_100))),
    (4_096, "0 flush\n", "0 move 0", None),
    (4_095, "0 delay 1\n", "0 move 0", None),
    (4_096, "0 delay 1\n", "0 move 0", Some(OutOfLimit(4_100))),
    (4_096, "0 delay 1\n", "9 move 0", Some(OutOfLimit(4_100))),
    (4_096, "0 delay 1\n", "0 move x", Some(BadNumber(4_100))),
    (1_024, "0 read 0 65536\n", "0 read 0 0", None),
    (1_024, "0 read 0 65536\n", "0 write 0 -", None),
    (1_024, "0 read 0 65536\n", "0 zero 0 65536", None),
    (
        1_024,
        "0 read 0 65536\n",
        "0 read 0 1",
        Some(OutOfLimit(1_028)),
    ),
    (
        1_024,
        "0 read 0 65536\n",
        "0 write 0 00",
        Some(OutOfLimit(1_028)),
    ),
];

#[test]
fn refuses_texts_by_their_headers(rt: HostRuntime) -> Result<(), Fail> {
    assert_refused(&rt, rt.alloc(), Kind::Script, "", &HEADERS)
}

#[test]
fn refuses_lines_behind_the_header(rt: HostRuntime) -> Result<(), Fail> {
    assert_refused(
        &rt,
        rt.alloc(),
        Kind::Script,
        "image 16\n#\nloops 2\nstream 0 0\n",
        &LINES,
    )
}

#[test]
fn refuses_the_line_past_what_all_may_ask(rt: HostRuntime) -> Result<(), Fail> {
    assert_many_refused(
        &rt,
        rt.alloc(),
        Kind::Script,
        "image 16\nloops 1\nstream 0 0\n",
        &PAST,
    )
}

#[test]
fn reads_the_values(rt: HostRuntime) -> Result<(), Fail> {
    let text = "image 16\nloops 3\nstream 63 2\n63 write 2 6869\n63 delay 1000000000\n63 move 1\n";
    let script = read_script(rt.alloc(), text.as_bytes())?;
    assert_eq!(rt; script.image, 16);
    assert_eq!(rt; script.loops, 3);
    assert_eq!(rt;
        script.streams.as_slice(),
        [Stream { id: 63, home: 2 }].as_slice()
    );
    let bytes = Bytes::of(Vec::from_slice(rt.alloc(), b"hi")?);
    assert_eq!(rt;
        script.lines.as_slice(),
        [
            Step {
                stream: 63,
                what: What::Ask(Request::Write { at: 2, bytes })
            },
            Step {
                stream: 63,
                what: What::Delay(1_000_000_000)
            },
            Step {
                stream: 63,
                what: What::Move(1)
            },
        ]
        .as_slice()
    );
    Ok(())
}
