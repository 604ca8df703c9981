//! The objects that stand for the outside, beside what they are told to do.
use aio_words::{
    Clock, Device, Failed, Gate, MemDevice, MemSink, MemSource, OpenGate, Sink, Source, StdSink,
    StdSource, StepClock,
};
use std::io;
use std::io::Write;
use std::test::Fail;

#[test]
fn gives_three_at_a_call_and_fails_at_call_one(rt: HostRuntime) -> Result<(), Fail> {
    let mut source = MemSource::build(rt.alloc(), b"abcdefgh", 3, &[1])?;
    let mut buf = [0; 4];
    for wanted in [Some("abc"), None, Some("def"), Some("gh"), Some("")] {
        let got = source.read(&mut buf).ok();
        assert_eq!(rt; got, wanted.map(|text| text.len()));
        let front = wanted.unwrap_or("");
        assert!(rt; buf.starts_with(front.as_bytes()), "at {front:?}");
    }
    Ok(())
}

#[test]
fn keeps_what_fits_and_fails_at_call_one(rt: HostRuntime) -> Result<(), Fail> {
    let mut sink = MemSink::build(rt.alloc(), 5, &[1])?;
    assert_eq!(rt; sink.write(b"abc"), Ok(()));
    assert_eq!(rt; sink.write(b"d"), Err(Failed));
    assert_eq!(rt; sink.write(b"def"), Err(Failed));
    assert_eq!(rt; sink.write(b"gh"), Ok(()));
    assert_eq!(rt; sink.bytes(), b"abcgh".as_slice());
    Ok(())
}

#[test]
fn finds_what_was_put_and_fails_at_call_two(rt: HostRuntime) -> Result<(), Fail> {
    let mut device = MemDevice::build(rt.alloc(), b"abcdef", &[2])?;
    let mut buf = [0; 4];
    assert_eq!(rt; device.size(), Ok(6));
    assert_eq!(rt; device.write_at(2, b"XY"), Ok(()));
    assert_eq!(rt; device.read_at(1, &mut buf), Err(Failed));
    assert_eq!(rt; device.read_at(1, &mut buf), Ok(()));
    assert_eq!(rt; device.flush(), Ok(()));
    assert_eq!(rt; buf.as_slice(), b"bXYe".as_slice());
    assert_eq!(rt; device.bytes(), b"abXYef".as_slice());
    Ok(())
}

#[test]
fn begins_with_zeros(rt: HostRuntime) -> Result<(), Fail> {
    let device = MemDevice::zeros(rt.alloc(), 3)?;
    assert_eq!(rt; device.bytes(), [0, 0, 0].as_slice());
    Ok(())
}

#[test]
fn pauses_move_it_on_up_to_the_greatest_time(rt: HostRuntime) {
    let mut clock = StepClock { now: 5 };
    clock.pause(7);
    assert_eq!(rt; clock.now(), 12);
    clock.pause(u64::MAX);
    assert_eq!(rt; clock.now(), u64::MAX);
}

#[test]
fn lets_a_stream_pass() {
    OpenGate.pass(3, 4);
}

/// Takes one byte at a write, as long as there is room.
#[derive(Drop)]
struct Narrow {
    got: Vec<u8>,
    room: u32,
}

impl Write for Narrow {
    fn write(&mut self, buf: &[u8]) -> io::Result<usize> {
        if buf.is_empty() || self.room == 0 {
            return Ok(0);
        }
        self.got.push(buf[0])?;
        self.room -= 1;
        Ok(1)
    }

    fn flush(&mut self) -> io::Result<()> {
        Ok(())
    }
}

#[test]
fn goes_on_with_short_writes_until_nothing_is_taken(rt: HostRuntime) {
    let got = Vec::new(rt.alloc());
    let writer = Narrow { got, room: 5 };
    let mut sink = StdSink::over(writer);
    assert_eq!(rt; sink.write(b"abcd"), Ok(()));
    assert_eq!(rt; sink.write(b"ef"), Err(Failed));
    assert_eq!(rt; sink.into_writer().got.as_slice(), b"abcde".as_slice());
}

#[test]
fn reads_on_from_a_reader(rt: HostRuntime) -> Result<(), Fail> {
    let mut source = StdSource::build(b"abc".as_slice())?;
    let mut buf = [0; 2];
    assert_eq!(rt; source.read(&mut buf), Ok(2));
    assert_eq!(rt; source.read(&mut buf), Ok(1));
    assert_eq!(rt; buf.as_slice(), b"cb".as_slice());
    assert_eq!(rt; source.read(&mut buf), Ok(0));
    Ok(())
}

#[test]
fn are_made_over_the_standard_streams(rt: HostRuntime) -> Result<(), Fail> {
    let _source = StdSource::build(rt.stdin())?;
    let mut output = StdSink::output(rt.stdout())?;
    let mut errors = StdSink::errors(rt.stderr())?;
    assert_eq!(rt; output.write(b""), Ok(()));
    assert_eq!(rt; errors.write(b""), Ok(()));
    Ok(())
}
