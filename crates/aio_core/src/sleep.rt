//! The steps by which home says that it is about to sleep, and that it is awake, after aio_poll of QEMU's util/aio-posix.c.
ghost use Rattle.std.specs.Prelude.{◌≡◌, ◌≤◌, ℕ, [], length, true, ◌==◌};
ghost use Rattle.aio_core.specs.Known.{Scanning, Armed, NotifierLoad, empty_stage, is_running, IsHomes};
ghost use Rattle.aio_core.specs.Words.{notifier_at};
ghost use Rattle.aio_core.specs.Standing.{Looks};
ghost use Rattle.aio_core.specs.SleepSteps.{Arms, Tests, Disarms, ClearsNotifier, Accepts, scan_in, watched_in, is_to_disarm};
ghost use Rattle.aio_core.specs.Scans.{IsAhead};
ghost use Rattle.aio_core.specs.Calls.{IsSeatOf};

use crate::home::Home;
use crate::job::Job;
use crate::plays::{Accept, Arm, ClearNotifier, Disarm, Test};
use crate::seat::Seat;
use crate::table::LoopTable;
use crate::words::{NOTIFIED, NOTIFIER, NOTIFY_ME};
use std::sync::Wait;

impl<J: Job> LoopTable<J> {
    fn add_notify_me(&self, seat: &mut Seat<J>) -> u64
        requires seat { IsSeatOf self.now seat.old }
        requires number { IsHomes seat.old.known }
        requires scanned { seat.old.known.sleep ≡ Scanning (length seat.old.known.did) (scan_in seat.old.known.sleep) }
        requires over { (scan_in seat.old.known.sleep).stage ≡ empty_stage }
        ensures seat { IsSeatOf self.now seat.new }
        ensures step { Arms (scan_in seat.old.known.sleep).watched result seat.old.known seat.new.known }
    {
        self.table
            .shared
            .fetch_add::<Arm>(&mut seat.inner, NOTIFY_ME, 2)
    }

    fn load_notified(&self, seat: &mut Seat<J>) -> u64
        requires seat { IsSeatOf self.now seat.old }
        requires number { IsHomes seat.old.known }
        requires armed { seat.old.known.sleep ≡ Armed (length seat.old.known.did) (watched_in seat.old.known.sleep) }
        ensures seat { IsSeatOf self.now seat.new }
        ensures step { Tests (watched_in seat.old.known.sleep) result seat.old.known seat.new.known }
    {
        self.table.shared.load::<Test>(&mut seat.inner, NOTIFIED)
    }

    fn sub_notify_me(&self, seat: &mut Seat<J>) -> u64
        requires seat { IsSeatOf self.now seat.old }
        requires number { IsHomes seat.old.known }
        requires due { is_to_disarm seat.old.known.sleep ≡ true }
        ensures seat { IsSeatOf self.now seat.new }
        ensures step { Disarms result seat.old.known seat.new.known }
    {
        self.table
            .shared
            .fetch_sub::<Disarm>(&mut seat.inner, NOTIFY_ME, 2)
    }

    fn take_notifier(&self, seat: &mut Seat<J>) -> u64
        requires seat { IsSeatOf self.now seat.old }
        requires number { IsHomes seat.old.known }
        requires running { is_running seat.old.known.sleep ≡ true }
        ensures seat { IsSeatOf self.now seat.new }
        ensures step { ClearsNotifier result seat.old.known seat.new.known }
    {
        self.table
            .shared
            .swap::<ClearNotifier>(&mut seat.inner, NOTIFIER, 0)
    }

    fn store_accept(&self, seat: &mut Seat<J>)
        requires seat { IsSeatOf self.now seat.old }
        requires number { IsHomes seat.old.known }
        requires running { is_running seat.old.known.sleep ≡ true }
        ensures seat { IsSeatOf self.now seat.new }
        ensures step { Accepts seat.old.known seat.new.known }
    {
        self.table
            .shared
            .store::<Accept>(&mut seat.inner, NOTIFIED, 0);
    }

    /// Says that home is about to sleep, by one atomic addition. A scan has found nothing urgent, and was home's last step but
    /// for looks at events.
    pub fn arm(&self, home: &mut Home<J>)
        requires seat { IsSeatOf self.now home.old.seat }
        requires scanned { IsAhead [] home.old.seat.known }
        ensures seat { IsSeatOf self.now home.new.seat }
        ensures step { (found : ℕ) × Arms (scan_in home.old.seat.known.sleep).watched found home.old.seat.known home.new.seat.known }
    {
        self.add_notify_me(&mut home.seat);
    }

    /// Whether anybody has notified the loop since home's last accept, by one atomic load. Home is committed where nobody has,
    /// and is else to disarm.
    pub fn test(&self, home: &mut Home<J>) -> bool
        requires seat { IsSeatOf self.now home.old.seat }
        requires armed { home.old.seat.known.sleep ≡ Armed (length home.old.seat.known.did) (watched_in home.old.seat.known.sleep) }
        ensures seat { IsSeatOf self.now home.new.seat }
        ensures step { (found : ℕ) × Tests (watched_in home.old.seat.known.sleep) found home.old.seat.known home.new.seat.known × (result ≡ (found == 1)) }
    {
        self.load_notified(&mut home.seat) == 1
    }

    /// Says that home is awake, by one atomic subtraction.
    pub fn disarm(&self, home: &mut Home<J>)
        requires seat { IsSeatOf self.now home.old.seat }
        requires due { is_to_disarm home.old.seat.known.sleep ≡ true }
        ensures seat { IsSeatOf self.now home.new.seat }
        ensures step { (found : ℕ) × Disarms found home.old.seat.known home.new.seat.known }
    {
        self.sub_notify_me(&mut home.seat);
    }

    /// Whether the notifier is set, by one atomic load.
    pub fn load_notifier(&self, home: &mut Home<J>) -> bool
        requires seat { IsSeatOf self.now home.old.seat }
        ensures seat { IsSeatOf self.now home.new.seat }
        ensures step { (found : ℕ) × (found ≤ 1) × (result ≡ (found == 1)) × Looks NotifierLoad notifier_at found home.old.seat.known home.new.seat.known }
    {
        self.read_notifier(&mut home.seat) == 1
    }

    /// Sleeps where the notifier isn't set, until it is set and wakes home, and costs no processor time meanwhile. It may also
    /// return for no reason, so home looks then. Only home sleeps on the notifier: who sets it wakes one thread.
    pub fn park<R: Wait>(&self, rt: &R, home: &Home<J>)
        requires seat { IsSeatOf self.now home.now.seat }
    {
        let _ = home;
        self.table.shared.park(rt, NOTIFIER, 0);
    }

    /// Clears the notifier, by one atomic swap. Home runs.
    pub fn clear_notifier(&self, home: &mut Home<J>)
        requires seat { IsSeatOf self.now home.old.seat }
        requires running { is_running home.old.seat.known.sleep ≡ true }
        ensures seat { IsSeatOf self.now home.new.seat }
        ensures step { (found : ℕ) × ClearsNotifier found home.old.seat.known home.new.seat.known }
    {
        self.take_notifier(&mut home.seat);
    }

    /// Forgets that anybody notified, by one atomic store. Home runs, and looks at the list and the events before it sleeps.
    pub fn clear_notified(&self, home: &mut Home<J>)
        requires seat { IsSeatOf self.now home.old.seat }
        requires running { is_running home.old.seat.known.sleep ≡ true }
        ensures seat { IsSeatOf self.now home.new.seat }
        ensures step { Accepts home.old.seat.known home.new.seat.known }
    {
        self.store_accept(&mut home.seat);
    }
}
