//! The machine's clock.
ghost use Rattle.std.specs.Prelude.{◌≡◌, ◌≤◌, IsOkAnd};

use aio_words::{Clock, NoMemory};
use std::time::{Duration, Instant};
use std::{thread, time};

/// The machine's clock that never goes back. It shows how many nanoseconds have passed since it was built, and stays
/// at the greatest u64. Where the machine doesn't tell the time, it shows again what it showed last.
#[derive(Drop)]
pub struct SystemClock<R> {
    machine: R,
    start: Option<Instant>,
    shown: u64,
}

impl<R: time::Clock> SystemClock<R> {
    /// A clock of this machine that begins at 0. Takes no memory.
    pub fn build(machine: R) -> Result<SystemClock<R>, NoMemory>
        ensures { IsOkAnd result (λ clock. clock.shown ≡ 0) }
    {
        let start = Instant::now(&machine).ok();
        Ok(SystemClock {
            machine,
            start,
            shown: 0,
        })
    }

    /// How many nanoseconds have passed, where the machine tells it.
    fn passed(&self) -> Option<u64> {
        let passed = self.start?.elapsed(&self.machine).ok()?;
        Some(u64::try_from(passed.as_nanos()).unwrap_or(u64::MAX))
    }
}

impl<R: time::Clock> Clock for SystemClock<R> {
    ghost time = { λ clock. clock.shown };

    fn now(&mut self) -> u64 {
        let passed = self.passed().unwrap_or(0);
        self.shown = self.shown.max(passed);
        self.shown
    }

    /// Sleeps.
    fn pause(&mut self, ns: u64) {
        thread::sleep(&self.machine, Duration::from_nanos(ns));
    }
}
