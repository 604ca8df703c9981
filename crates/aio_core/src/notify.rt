//! The steps of a notify from any thread, after aio_notify of QEMU's util/async.c: mark that there is work, look whether home is
//! about to sleep, and wake it where it is.
ghost use Rattle.std.specs.Prelude.{◌≡◌, ◌==◌, ℕ, not, true};
ghost use Rattle.aio_model.specs.Loop.InFlight.{ToLoad, ToSet, flight_of};
ghost use Rattle.aio_core.specs.Standing.{may_notify, StoresNotified, LoadsNotifyMe, SetsNotifier};
ghost use Rattle.aio_core.specs.Calls.{IsSeatOf};

use crate::job::Job;
use crate::plays::{LoadNotifyMe, SetNotifier, StoreNotified};
use crate::seat::Seat;
use crate::table::LoopTable;
use crate::words::{NOTIFIED, NOTIFIER, NOTIFY_ME};

impl<J: Job> LoopTable<J> {
    /// Marks that there is work, by one atomic store. A seat that has pushed what it announced, or found it pending; or one
    /// at rest, for nothing.
    pub fn store_notified(&self, seat: &mut Seat<J>)
        requires seat { IsSeatOf self.now seat.old }
        requires phase { may_notify seat.old.known.phase ≡ true }
        ensures seat { IsSeatOf self.now seat.new }
        ensures step { StoresNotified (flight_of seat.old.known.phase) seat.old.known seat.new.known }
    {
        self.table
            .shared
            .store::<StoreNotified>(&mut seat.inner, NOTIFIED, 1);
    }

    fn load_armed(&self, seat: &mut Seat<J>) -> u64
        requires seat { IsSeatOf self.now seat.old }
        requires phase { seat.old.known.phase ≡ ToLoad (flight_of seat.old.known.phase) }
        ensures seat { IsSeatOf self.now seat.new }
        ensures step { LoadsNotifyMe (flight_of seat.old.known.phase) result seat.old.known seat.new.known }
    {
        self.table
            .shared
            .load::<LoadNotifyMe>(&mut seat.inner, NOTIFY_ME)
    }

    /// Whether home is about to sleep, by one atomic load. The seat is at rest where it isn't, and has else to set the
    /// notifier.
    pub fn load_notify_me(&self, seat: &mut Seat<J>) -> bool
        requires seat { IsSeatOf self.now seat.old }
        requires phase { seat.old.known.phase ≡ ToLoad (flight_of seat.old.known.phase) }
        ensures seat { IsSeatOf self.now seat.new }
        ensures step { (found : ℕ) × (result ≡ not (found == 0)) × LoadsNotifyMe (flight_of seat.old.known.phase) found seat.old.known seat.new.known }
    {
        self.load_armed(seat) != 0
    }

    fn swap_notifier(&self, seat: &mut Seat<J>) -> u64
        requires seat { IsSeatOf self.now seat.old }
        requires phase { seat.old.known.phase ≡ ToSet (flight_of seat.old.known.phase) }
        ensures seat { IsSeatOf self.now seat.new }
        ensures step { SetsNotifier result seat.old.known seat.new.known }
    {
        self.table
            .shared
            .swap::<SetNotifier>(&mut seat.inner, NOTIFIER, 1)
    }

    /// Sets the notifier, by one atomic swap, and wakes home where it waits for it. The seat is at rest.
    pub fn set_notifier(&self, seat: &mut Seat<J>)
        requires seat { IsSeatOf self.now seat.old }
        requires phase { seat.old.known.phase ≡ ToSet (flight_of seat.old.known.phase) }
        ensures seat { IsSeatOf self.now seat.new }
        ensures step { (found : ℕ) × SetsNotifier found seat.old.known seat.new.known }
    {
        self.swap_notifier(seat);
        self.table.shared.wake_one(NOTIFIER);
    }
}
