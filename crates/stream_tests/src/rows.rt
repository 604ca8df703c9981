//! Scripts of one stream, whose resumes, replies and bytes were worked out by hand.
ghost use Rattle.std.specs.Prelude.{◌≤◌, length};

use crate::alone::{Tally, serve_alone};
use crate::stage::set_up;
use aio_script::read_script;
use aio_words::MemDevice;
use img_shared::{Image, Mark};
use std::alloc::Global;
use std::process::Abort;
use std::sync::Wait;
use std::test::Fail;

/// A script whose one stream has the id 0, served to its end on zeros.
fn serve<R: Wait + Abort>(rt: &R, alloc: Global, text: &[u8]) -> (Image<MemDevice>, Tally)
    requires { length text.now ≤ 4294967295 }
{
    let script = match read_script(alloc, text) {
        Ok(script) => script,
        Err(_) => panic!(rt; "it is a script"),
    };
    let size = match u32::try_from(script.image) {
        Ok(size) => size,
        Err(_) => panic!(rt; "the image is small"),
    };
    let device = match MemDevice::zeros(alloc, size) {
        Ok(device) => device,
        Err(_) => panic!(rt; "there is memory"),
    };
    let (lock, pass, room) = set_up(rt, alloc, device, &script);
    serve_alone(rt, alloc, lock, pass, &script, room)
}

const ALL_LINES: &[u8] = b"image 8192
loops 2
stream 0 0
0 delay 5
0 write 0 0102
0 move 1
0 read 0 2
0 read 8191 2
0 zero 1 5000
0 flush
";

/// A write, a read and a flush take three resumes each, a zero of two pieces four, and a request past the end one. Each of
/// these ends with a Yield, and with a wake of the coroutine itself.
#[test]
fn a_stream_alone_is_served_to_its_end(rt: HostRuntime) -> Result<(), Fail> {
    let (image, tally) = serve(&rt, rt.alloc(), ALL_LINES);
    assert_eq!(rt;
        tally,
        Tally {
            yields: 14,
            sleeps: 1,
            moves: 1,
            wakes: 14,
            quits: 1
        }
    );
    let want = [
        Mark::Put(2),
        Mark::Got(2),
        Mark::Einval,
        Mark::Zeroed(5000),
        Mark::Flushed,
    ];
    assert_eq!(rt; image.journal().len(), want.len());
    for (entry, mark) in image.journal().iter().zip(want.iter()) {
        assert_eq!(rt; entry.mark, *mark);
    }
    let device = image.into_device();
    assert_eq!(rt; device.bytes().get(0), Some(&1));
    assert!(rt; device.bytes().iter().skip(1).all(|byte| *byte == 0));
    Ok(())
}

/// A stream with no line retires at its first resume.
#[test]
fn a_stream_without_lines_retires_at_once(rt: HostRuntime) -> Result<(), Fail> {
    let (image, tally) = serve(&rt, rt.alloc(), b"image 16\nloops 1\nstream 0 0\n");
    assert_eq!(rt;
        tally,
        Tally {
            yields: 0,
            sleeps: 0,
            moves: 0,
            wakes: 0,
            quits: 1
        }
    );
    assert!(rt; image.journal().is_empty());
    let _device = image.into_device();
    Ok(())
}
