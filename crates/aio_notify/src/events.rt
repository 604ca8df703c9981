//! Events, after event_notifier_set of QEMU: any thread sets one and wakes home, and home looks which are set.
ghost use Rattle.std.specs.Prelude.{◌≡◌, ◌<◌, ◌+◌, ◌^◌, if◌then◌else◌};
ghost use Rattle.aio_model.specs.Loop.InFlight.{AtRest};
ghost use Rattle.aio_model.specs.Loop.History.{SetEvent};
ghost use Rattle.aio_core.specs.Standing.{Makes};
ghost use Rattle.aio_core.specs.Scans.{SameButSleep};
ghost use Rattle.aio_core.specs.Calls.{IsSeatOf, IsReady};
ghost use Rattle.aio_notify.specs.Watching.{FindsBits};
ghost use Rattle.aio_notify.specs.Setting.{SetsAndNotifies};

use crate::notification::Notify;
use crate::watching::is_set;
use aio_core::{Home, Job, LoopTable, Seat};

/// What is done with events by more than one step.
pub trait LoopEvents<J: Job> {
    ghost use Rattle.aio_core.specs.Calls.{TableState};

    ghost table: { Self → TableState };

    /// Sets an event, and notifies home.
    fn set_event(&self, seat: &mut Seat<J>, event: u32)
        requires seat { IsReady (table self.now) seat.old }
        requires event { event < (table self.now).sizes.events }
        ensures seat { IsSeatOf (table self.now) seat.new }
        ensures steps { SetsAndNotifies event seat.old.known seat.new.known }
        ensures makes { Makes (SetEvent event seat.old.known.first) seat.old.known seat.new.known }
        ensures same { seat.new.known ≡ record seat.old.known { seen = seat.new.known.seen; mine = seat.new.known.mine; did = seat.new.known.did } };

    /// Loads each event whose bit is in `watch`, and answers the bits of those that it found set. Bits at or above the number of
    /// events count as not set.
    fn found_set(&self, home: &mut Home<J>, watch: u64) -> u64
        requires seat { IsSeatOf (table self.now) home.old.seat }
        ensures seat { IsSeatOf (table self.now) home.new.seat }
        ensures finds { FindsBits watch (table self.now).sizes.events result home.old.seat.known home.new.seat.known }
        ensures same { SameButSleep home.old.seat.known home.new.seat.known };
}

/// The bits, with that of one event more where it is set.
fn with_bit(bits: u64, event: u32, set: bool) -> u64
    requires event { event < 64 }
    requires low { bits < 2 ^ event }
    ensures value { result ≡ (if set then bits + 2 ^ event else bits) }
    ensures low { result < 2 ^ (event + 1) }
{
    if set { bits + (1 << event) } else { bits }
}

impl<J: Job> LoopEvents<J> for LoopTable<J> {
    ghost table = { λ t. t };

    fn set_event(&self, seat: &mut Seat<J>, event: u32) {
        self.mark_event(seat, event);
        self.notify(seat);
    }

    fn found_set(&self, home: &mut Home<J>, watch: u64) -> u64 {
        let mut bits = 0;
        for event in 0..self.events() {
            let set = is_set(self, home, watch, event);
            bits = with_bit(bits, event, set);
        }
        bits
    }
}
