//! The steps on events, after event_notifier_set and event_notifier_test_and_clear of QEMU. An event is set by any thread, with a
//! notify behind it, and looked at and cleared by home.
ghost use Rattle.std.specs.Prelude.{◌≡◌, ◌<◌, ◌==◌, ℕ};
ghost use Rattle.aio_model.specs.Loop.InFlight.{AtRest};
ghost use Rattle.aio_core.specs.SleepSteps.{SetsEvent, ClearsEvent, LoadsEvent};
ghost use Rattle.aio_core.specs.Calls.{IsSeatOf, IsReady};
ghost use Rattle.aio_core.specs.Known.{IsHomes};

use crate::home::Home;
use crate::job::Job;
use crate::plays::{ClearEvent, LoadEvent, SetEvent};
use crate::seat::Seat;
use crate::table::LoopTable;
use crate::words::event_word;

impl<J: Job> LoopTable<J> {
    fn swap_in_event(&self, seat: &mut Seat<J>, event: u32) -> u64
        requires seat { IsReady self.now seat.old }
        requires event { event < self.now.sizes.events }
        ensures seat { IsSeatOf self.now seat.new }
        ensures step { SetsEvent event result seat.old.known seat.new.known }
    {
        self.table
            .shared
            .swap::<SetEvent>(&mut seat.inner, event_word(event), 1)
    }

    fn swap_out_event(&self, seat: &mut Seat<J>, event: u32) -> u64
        requires seat { IsSeatOf self.now seat.old }
        requires number { IsHomes seat.old.known }
        requires event { event < self.now.sizes.events }
        ensures seat { IsSeatOf self.now seat.new }
        ensures step { ClearsEvent event result seat.old.known seat.new.known }
    {
        self.table
            .shared
            .swap::<ClearEvent>(&mut seat.inner, event_word(event), 0)
    }

    fn read_event(&self, seat: &mut Seat<J>, event: u32) -> u64
        requires seat { IsSeatOf self.now seat.old }
        requires number { IsHomes seat.old.known }
        requires event { event < self.now.sizes.events }
        ensures seat { IsSeatOf self.now seat.new }
        ensures step { LoadsEvent event result seat.old.known seat.new.known }
    {
        self.table
            .shared
            .load::<LoadEvent>(&mut seat.inner, event_word(event))
    }

    /// Sets an event, by one atomic swap. The seat has to notify then.
    pub fn mark_event(&self, seat: &mut Seat<J>, event: u32)
        requires seat { IsReady self.now seat.old }
        requires event { event < self.now.sizes.events }
        ensures seat { IsSeatOf self.now seat.new }
        ensures step { (found : ℕ) × SetsEvent event found seat.old.known seat.new.known }
    {
        self.swap_in_event(seat, event);
    }

    /// Clears an event, by one atomic swap. Whether it was set.
    pub fn clear_event(&self, home: &mut Home<J>, event: u32) -> bool
        requires seat { IsSeatOf self.now home.old.seat }
        requires event { event < self.now.sizes.events }
        ensures seat { IsSeatOf self.now home.new.seat }
        ensures step { (found : ℕ) × (result ≡ (found == 1)) × ClearsEvent event found home.old.seat.known home.new.seat.known }
    {
        self.swap_out_event(&mut home.seat, event) == 1
    }

    /// Whether an event is set, by one atomic load.
    pub fn load_event(&self, home: &mut Home<J>, event: u32) -> bool
        requires seat { IsSeatOf self.now home.old.seat }
        requires event { event < self.now.sizes.events }
        ensures seat { IsSeatOf self.now home.new.seat }
        ensures step { (found : ℕ) × (result ≡ (found == 1)) × LoadsEvent event found home.old.seat.known home.new.seat.known }
    {
        self.read_event(&mut home.seat, event) == 1
    }
}
