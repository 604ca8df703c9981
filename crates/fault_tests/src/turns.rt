//! The script has 64 requests of eight streams: 24 writes and 24 reads of one piece, eight zeroings of two, and eight
//! flushes.
use crate::expected::{device_calls, is_eio, printed_text};
use crate::run::{Fails, Seen, Stage, is_lawful, leaves, run, set_up};
use aio_cli::Answer::{DeviceFault, ReadFault, WriteFault};
use std::alloc::Global;
use std::process::Abort;
use std::sync::Wait;
use std::test::Fail;
use std::thread::Threads;

const NONE: Fails<'static> = Fails {
    reads: &[],
    writes: &[],
    calls: &[],
};

/// The script was served, lawfully, the device has the bytes that the replies leave, and so many replies tell of a
/// fault.
fn assert_served(
    rt: &impl Abort,
    alloc: Global,
    stage: &Stage,
    seen: &Seen,
    eios: usize,
) -> Result<(), Fail> {
    assert!(rt; is_lawful(alloc, stage, seen)?);
    assert!(rt; leaves(alloc, stage, seen)?);
    let found = seen.served.iter().filter(|placed| is_eio(placed)).count();
    assert_eq!(rt; found, eios);
    Ok(())
}

/// This call of the device fails; call 0 asks for its length.
fn assert_device_fault<R: Abort + Threads + Wait + Sync>(
    rt: &R,
    alloc: Global,
    stage: &Stage,
    call: u32,
) -> Result<(), Fail> {
    let fails = Fails {
        calls: &[call],
        ..NONE
    };
    let seen = run(rt, alloc, stage, fails)?;
    if call == 0 {
        assert_eq!(rt; seen.answer, DeviceFault);
        assert!(rt; seen.printed.is_empty());
        return Ok(());
    }
    let eios = usize::from((call as u64) < device_calls(&stage.script));
    assert_served(rt, alloc, stage, &seen, eios)?;
    let wanted = printed_text(alloc, &stage.script, seen.served.as_slice())?;
    assert_eq!(rt; seen.printed.as_slice(), wanted.as_bytes(), "call {call}");
    Ok(())
}

#[test]
fn each_call_of_the_device_in_turn(rt: HostRuntime) -> Result<(), Fail> {
    let stage = set_up(rt.alloc())?;
    for call in 0..81u32 {
        assert_device_fault(&rt, rt.alloc(), &stage, call)?;
    }
    Ok(())
}

fn assert_read_fault<R: Abort + Threads + Wait + Sync>(
    rt: &R,
    alloc: Global,
    stage: &Stage,
    call: u32,
) -> Result<(), Fail> {
    let fails = Fails {
        reads: &[call],
        ..NONE
    };
    let seen = run(rt, alloc, stage, fails)?;
    assert_eq!(rt; seen.answer, ReadFault, "call {call}");
    assert!(rt; seen.printed.is_empty() && seen.served.is_empty());
    assert_eq!(rt; seen.device.bytes(), stage.opening.as_slice());
    Ok(())
}

/// The last read that a run makes finds the end.
#[test]
fn each_read_in_turn(rt: HostRuntime) -> Result<(), Fail> {
    let stage = set_up(rt.alloc())?;
    let pieces = stage.text.len().div_ceil(100);
    assert!(rt; 30 < pieces && pieces < 100);
    for call in 0..pieces as u32 + 1 {
        assert_read_fault(&rt, rt.alloc(), &stage, call)?;
    }
    Ok(())
}

/// The text is shorter than a page, so that it goes to the sink by one call.
#[test]
fn each_write_in_turn(rt: HostRuntime) -> Result<(), Fail> {
    let alloc = rt.alloc();
    let stage = set_up(alloc)?;
    let fails = Fails {
        writes: &[0],
        ..NONE
    };
    let seen = run(&rt, alloc, &stage, fails)?;
    assert_eq!(rt; seen.answer, WriteFault);
    assert!(rt; seen.printed.is_empty());
    assert_served(&rt, alloc, &stage, &seen, 0)
}

/// Behind the one call there is none that could fail.
#[test]
fn no_second_write(rt: HostRuntime) -> Result<(), Fail> {
    let alloc = rt.alloc();
    let stage = set_up(alloc)?;
    let fails = Fails {
        writes: &[1],
        ..NONE
    };
    let seen = run(&rt, alloc, &stage, fails)?;
    let wanted = printed_text(alloc, &stage.script, seen.served.as_slice())?;
    assert_eq!(rt; seen.printed.as_slice(), wanted.as_bytes());
    assert_served(&rt, alloc, &stage, &seen, 0)
}
