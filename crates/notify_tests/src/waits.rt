//! A wait with a bound goes by the clock and by the notifier.
ghost use Rattle.std.specs.Prelude.{◌≡◌, true};

use aio_core::{Built, Home, LoopTable, Seat};
use aio_model::Commit;
use aio_notify::{LoopEvents, Sleeping};
use aio_words::{Clock, StepClock};
use std::test::Fail;

/// A clock of the test's own, which counts its pauses and the longest of them.
#[derive(Drop)]
struct Paused {
    now: u64,
    pauses: u32,
    longest: u64,
}

impl Clock for Paused {
    ghost use Rattle.std.specs.Prelude.{◌≡◌, ◌≤◌};

    ghost time = { λ clock. clock.now };

    fn now(&mut self) -> u64
        ensures later { self.old.now ≤ result }
        ensures shown { self.new.now ≡ result }
    {
        self.now
    }

    fn pause(&mut self, ns: u64)
        ensures { self.old.now ≤ self.new.now }
    {
        self.now = self.now.saturating_add(ns);
        self.pauses = self.pauses.saturating_add(1);
        self.longest = self.longest.max(ns);
    }
}

#[test]
fn a_wait_with_a_bound_pauses_a_millisecond_at_most(rt: HostRuntime) -> Result<(), Fail> {
    let Ok(
        Built {
            table,
            mut home,
            mut seat,
        },
    ) = LoopTable::<u64>::build(rt.alloc(), 1, 0, 1)
    else {
        return Err(Fail::from("no memory"));
    };
    let mut clock = Paused {
        now: 7,
        pauses: 0,
        longest: 0,
    };
    let Commit::Sleep(None) = table.commit(&mut home, 0, None, 0) else {
        return Err(Fail::from("awake"));
    };
    table.wait(&rt, &mut home, Some(2_500_000), &mut clock);
    assert_eq!(rt;
        (clock.now, clock.pauses, clock.longest),
        (2_500_007, 3, 1_000_000)
    );
    table.wait(&rt, &mut home, Some(0), &mut clock);
    assert_eq!(rt; (clock.now, clock.pauses), (2_500_007, 3));
    table.set_event(&mut seat, 0);
    table.wait(&rt, &mut home, Some(u64::MAX), &mut clock);
    assert_eq!(rt; (clock.now, clock.pauses), (2_500_007, 3));
    table.wait(&rt, &mut home, None, &mut clock);
    assert_eq!(rt; (clock.now, clock.pauses), (2_500_007, 3));
    Ok(())
}
