//! A device that stays in a call while another loop goes on with its own turns.
ghost use Rattle.std.specs.Prelude.{Some, length, refl};

use crate::home::{Watch, clocks};
use crate::stage::run;
use aio_cli::Answer;
use aio_words::{Device, Failed, MemDevice, OpenGate};
use std::sync::atomic::{AtomicBool, Ordering};
use std::test::Fail;

/// How often a read looks at the other loop.
const LOOKS: u32 = 20_000_000;

/// The time at which the stream on the other loop has slept five times.
const SLEPT: u64 = 5_000;

/// A device in memory that stays in a read until the stream on the other loop has slept five times.
#[derive(Drop)]
struct Lingering<'a> {
    memory: MemDevice,
    other: &'a Watch,
    /// Whether a read has seen that.
    has_seen: &'a AtomicBool,
}

/// Waits until the clock of that loop stands so late, or has looked so often.
fn has_slept(watch: &Watch) -> bool {
    for _ in 0..LOOKS {
        if SLEPT <= watch.time.load(Ordering::SeqCst) {
            return true;
        }
    }
    false
}

impl Device for Lingering<'_> {
    ghost extent = { λ d. length d.memory.bytes };

    ghost bytes = { λ d. Some d.memory.bytes };

    ghost size_faults = { λ d. d.memory.size_faults };

    ghost faults = { λ d. d.memory.faults };

    ghost calls = { λ d. d.memory.called };

    ghost as_many = { λ _. refl };

    fn size(&mut self) -> Result<u64, Failed> {
        self.memory.size()
    }

    fn read_at(&mut self, at: u64, buf: &mut [u8]) -> Result<(), Failed> {
        if has_slept(self.other) {
            self.has_seen.store(true, Ordering::SeqCst);
        }
        self.memory.read_at(at, buf)
    }

    fn write_at(&mut self, at: u64, piece: &[u8]) -> Result<(), Failed> {
        self.memory.write_at(at, piece)
    }

    fn flush(&mut self) -> Result<(), Failed> {
        self.memory.flush()
    }
}

const ONE_READS: &[u8] =
    b"image 16\nloops 2\nstream 0 0\nstream 1 1\n0 read 0 1\n1 delay 1000\n1 delay 1000\n1 delay 1000\n1 delay 1000\n1 delay 1000\n1 flush\n";

#[test]
fn other_loops_go_on_while_a_device_is_called(rt: HostRuntime) -> Result<(), Fail> {
    let alloc = rt.alloc();
    let watches = [Watch::new(), Watch::new()];
    let has_seen = AtomicBool::new(false);
    let device = Lingering {
        memory: MemDevice::zeros(alloc, 16)?,
        other: &watches[1],
        has_seen: &has_seen,
    };
    let clocks = clocks(alloc, &watches)?;
    let seen = run(&rt, alloc, ONE_READS, device, clocks, &OpenGate)?;
    assert_eq!(rt; seen.answer, Answer::Done);
    assert!(rt; has_seen.load(Ordering::SeqCst));
    Ok(())
}
