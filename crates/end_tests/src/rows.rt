//! Scripts whose printed replies were worked out by hand.
use crate::stage::{printed, script_of, serve, zeros};
use aio_words::MemDevice;
use std::alloc::Global;
use std::process::Abort;
use std::sync::Wait;
use std::test::Fail;

/// The device and the printed replies of a script that is served on zeros, just as many as the image has bytes.
fn run<R: Wait + Abort>(rt: &R, alloc: Global, text: &[u8]) -> Result<(MemDevice, Vec<u8>), Fail> {
    let script = script_of(rt, alloc, text);
    let opening = zeros(alloc, script.image)?;
    let device = MemDevice::build(alloc, opening.as_slice(), &[])?;
    let done = serve(rt, alloc, &script, device);
    let text = printed(alloc, &script, done.served.as_slice())?;
    Ok((done.device, text))
}

/// A script, and what is printed of it.
type Row = (&'static [u8], &'static [u8]);

const ROWS: [Row; 4] = [
    (
        b"image 16\nloops 1\nstream 0 0\n0 read 8 8\n0 read 9 8\n",
        b"0 0 read ok 0000000000000000\n1 0 read einval\nend 2 1\n",
    ),
    (
        b"image 16\nloops 1\nstream 0 0\n0 read 16 0\n0 read 17 0\n",
        b"0 0 read ok -\n1 0 read einval\nend 2 1\n",
    ),
    (
        b"image 9000\nloops 2\nstream 63 1\n63 delay 5\n63 zero 1 8999\n63 move 0\n63 flush\n",
        b"0 63 zero ok 8999\n1 63 flush ok\nend 2 0\n",
    ),
    (b"image 16\nloops 3\n", b"end 0 0\n"),
];

#[test]
fn replies_of_one_stream_and_of_none(rt: HostRuntime) -> Result<(), Fail> {
    for (script, wanted) in ROWS {
        let (_device, text) = run(&rt, rt.alloc(), script)?;
        assert_eq!(rt; text.as_slice(), wanted);
    }
    Ok(())
}

/// The read of the second stream may stand between the first one's write and read, behind both, or before both.
const ORDERS: [&[u8]; 3] = [
    b"0 0 write ok 1\n1 1 read ok aa\n2 0 read ok aa\nend 3 0\n",
    b"0 0 write ok 1\n2 1 read ok aa\n1 0 read ok aa\nend 3 0\n",
    b"1 0 write ok 1\n0 1 read ok 00\n2 0 read ok aa\nend 3 0\n",
];

#[test]
fn two_streams_are_served_in_one_of_three_orders(rt: HostRuntime) -> Result<(), Fail> {
    let script =
        b"image 4\nloops 2\nstream 0 0\nstream 1 1\n0 write 0 aa\n1 read 0 1\n0 read 0 1\n";
    let (device, text) = run(&rt, rt.alloc(), script)?;
    assert!(rt; ORDERS.iter().any(|order| *order == text.as_slice()));
    assert_eq!(rt; device.bytes(), b"\xaa\0\0\0".as_slice());
    Ok(())
}
