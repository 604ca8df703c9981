//! A clock for tests, which only its pauses move on.
ghost use Rattle.std.specs.Prelude.{◌≡◌, ◌+◌, ◌-◌, ◌^◌, ◌≤◌, min};

use crate::Clock;

/// A clock that only its pauses move on, each by the time that it is to last.
#[derive(Clone, Copy, Debug, PartialEq, Eq)]
pub struct StepClock {
    pub now: u64,
}

impl Clock for StepClock {
    ghost time = { λ clock. clock.now };

    fn now(&mut self) -> u64
        ensures same { self.new ≡ self.old }
        ensures value { result ≡ self.old.now }

        // What every clock promises.
        ensures later { self.old.now ≤ result }
        ensures shown { self.new.now ≡ result }
    {
        self.now
    }

    fn pause(&mut self, ns: u64)
        // The time stays at the greatest u64.
        ensures after { self.new.now ≡ min (self.old.now + ns) (2 ^ 64 - 1) }

        // What every clock promises.
        ensures later { self.old.now ≤ self.new.now }
    {
        self.now = self.now.saturating_add(ns);
    }
}
