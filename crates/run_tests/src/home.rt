//! Each stream is served on its own loop: while it passes the gate nothing else happens on that loop, and it sleeps by that loop's clock.
ghost use Rattle.std.specs.Prelude.{◌≡◌, ◌≤◌, vec_len, IfOk};

use crate::stage::run;
use aio_cli::Answer;
use aio_words::{Clock, Gate, MemDevice};
use std::alloc::Global;
use std::sync::atomic::{AtomicBool, AtomicU64, Ordering};
use std::test::Fail;

/// How often a pass looks at its loop.
const LOOKS: u32 = 100_000;

const CLOCKS: usize = 16;

const RUNS: u32 = 100;

/// What is seen of one loop.
#[derive(Drop)]
pub(crate) struct Watch {
    /// How often its clock was called, and the time that the clock stands at.
    calls: AtomicU64,
    pub(crate) time: AtomicU64,
    /// Whether a stream passes the gate there.
    is_passed: AtomicBool,
}

impl Watch {
    pub(crate) fn new() -> Watch {
        Watch {
            calls: AtomicU64::new(0),
            time: AtomicU64::new(0),
            is_passed: AtomicBool::new(false),
        }
    }
}

/// A clock that only its pauses move on, seen by whoever watches its loop.
#[derive(Drop)]
pub(crate) struct Watched<'a> {
    now: u64,
    watch: &'a Watch,
}

impl Clock for Watched<'_> {
    ghost time = { λ clock. clock.now };

    fn now(&mut self) -> u64 {
        self.watch.calls.fetch_add(1, Ordering::SeqCst);
        self.now
    }

    fn pause(&mut self, ns: u64) {
        self.now = self.now.saturating_add(ns);
        self.watch.calls.fetch_add(1, Ordering::SeqCst);
        self.watch.time.store(self.now, Ordering::SeqCst);
    }
}

/// The watches of two loops, and whether each pass of the gate was as it is to be.
#[derive(Drop)]
struct Home {
    watches: [Watch; 2],
    is_wrong: AtomicBool,
    passes: AtomicU64,
}

impl Home {
    fn new() -> Home {
        Home {
            watches: [Watch::new(), Watch::new()],
            is_wrong: AtomicBool::new(false),
            passes: AtomicU64::new(0),
        }
    }

    /// Nobody else passes on this loop, and its clock isn't called meanwhile.
    fn is_left_alone(&self, watch: &Watch) -> bool {
        if watch.is_passed.swap(true, Ordering::SeqCst) {
            return false;
        }
        let calls = watch.calls.load(Ordering::SeqCst);
        for _ in 0..LOOKS {
            if watch.calls.load(Ordering::SeqCst) != calls {
                return false;
            }
        }
        watch.is_passed.store(false, Ordering::SeqCst);
        true
    }
}

impl Gate for Home {
    fn pass(&self, stream: u32, index: u32) {
        // The first request of the first stream is passed on loop 0, all others on loop 1; those behind a sleep not before it is over.
        let watch = if stream == 0 && index == 0 {
            &self.watches[0]
        } else {
            &self.watches[1]
        };
        let is_late = index == 0 || 1_000 <= watch.time.load(Ordering::SeqCst);
        if !self.is_left_alone(watch) || !is_late {
            self.is_wrong.store(true, Ordering::SeqCst);
        }
        self.passes.fetch_add(1, Ordering::SeqCst);
    }
}

/// Sixteen clocks, which two loops' watches see in turns.
pub(crate) fn clocks<'a>(alloc: Global, watches: &'a [Watch; 2]) -> Result<Vec<Watched<'a>>, Fail>
    ensures { IfOk result (λ clocks. vec_len clocks ≡ 16) }
{
    let mut clocks = Vec::new(alloc);
    for k in 0..CLOCKS {
        clocks.push(Watched {
            now: 0,
            watch: &watches[k % 2],
        })?;
    }
    Ok(clocks)
}

const MOVED: &[u8] =
    b"image 16\nloops 2\nstream 0 0\nstream 1 1\n0 flush\n0 move 1\n0 delay 1000\n0 flush\n1 flush\n1 delay 1000\n1 flush\n";

#[test]
fn served_at_home(rt: HostRuntime) -> Result<(), Fail> {
    let alloc = rt.alloc();
    for _ in 0..RUNS {
        let home = Home::new();
        let device = MemDevice::zeros(alloc, 16)?;
        let seen = run(
            &rt,
            alloc,
            MOVED,
            device,
            clocks(alloc, &home.watches)?,
            &home,
        )?;
        assert_eq!(rt; seen.answer, Answer::Done);
        assert!(rt; !home.is_wrong.load(Ordering::SeqCst));
        assert_eq!(rt; home.passes.load(Ordering::SeqCst), 4);
    }
    Ok(())
}
