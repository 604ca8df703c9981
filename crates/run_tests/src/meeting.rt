//! Two streams that wait for each other.
use crate::stage::{run, sixteen};
use aio_cli::Answer;
use aio_words::{Gate, MemDevice, StepClock};
use std::sync::atomic::{AtomicBool, Ordering};
use std::test::Fail;

/// How often a stream looks for the other one.
const LOOKS: u32 = 20_000_000;

/// A gate at which each of two streams waits for the other.
#[derive(Drop)]
struct Meeting {
    came: [AtomicBool; 2],
    met: [AtomicBool; 2],
}

/// Waits until it is set, or has looked so often.
pub(crate) fn look(flag: &AtomicBool) -> bool {
    for _ in 0..LOOKS {
        if flag.load(Ordering::SeqCst) {
            return true;
        }
    }
    false
}

impl Gate for Meeting {
    fn pass(&self, stream: u32, _index: u32) {
        let own = (stream % 2) as usize;
        self.came[own].store(true, Ordering::SeqCst);
        if look(&self.came[1 - own]) {
            self.met[own].store(true, Ordering::SeqCst);
        }
    }
}

const TWO_READS: &[u8] = b"image 16\nloops 2\nstream 0 0\nstream 1 1\n0 read 0 1\n1 read 0 1\n";

#[test]
fn two_loops_meet(rt: HostRuntime) -> Result<(), Fail> {
    let gate = Meeting {
        came: [AtomicBool::new(false), AtomicBool::new(false)],
        met: [AtomicBool::new(false), AtomicBool::new(false)],
    };
    let alloc = rt.alloc();
    let device = MemDevice::zeros(alloc, 16)?;
    let clocks = sixteen(alloc, StepClock { now: 0 })?;
    let seen = run(&rt, alloc, TWO_READS, device, clocks, &gate)?;
    assert_eq!(rt; seen.answer, Answer::Done);
    assert!(rt; gate.met[0].load(Ordering::SeqCst));
    assert!(rt; gate.met[1].load(Ordering::SeqCst));
    Ok(())
}
