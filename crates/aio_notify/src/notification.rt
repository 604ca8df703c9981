//! A notify from any thread, after aio_notify of QEMU's util/async.c.
ghost use Rattle.std.specs.Prelude.{◌≡◌, true};
ghost use Rattle.aio_model.specs.Loop.InFlight.{AtRest};
ghost use Rattle.aio_core.specs.Standing.{may_notify};
ghost use Rattle.aio_core.specs.Calls.{IsSeatOf};
ghost use Rattle.aio_notify.specs.Notifying.{Notifies};

use aio_core::{Job, LoopTable, Seat};

/// What any thread does to wake the home thread.
pub trait Notify<J: Job> {
    ghost use Rattle.aio_core.specs.Calls.{TableState};

    ghost table: { Self → TableState };

    /// Lets home know that there is work, and wakes it where it sleeps. A seat that has pushed what it announced, or found it
    /// pending, is at rest only after this. One at rest may call it too: then home looks once more, and finds what it finds.
    fn notify(&self, seat: &mut Seat<J>)
        requires seat { IsSeatOf (table self.now) seat.old }
        requires phase { may_notify seat.old.known.phase ≡ true }
        ensures seat { IsSeatOf (table self.now) seat.new }
        ensures steps { Notifies seat.old.known seat.new.known }
        ensures same { seat.new.known ≡ record seat.old.known { did = seat.new.known.did; phase = AtRest } };
}

impl<J: Job> Notify<J> for LoopTable<J> {
    ghost table = { λ t. t };

    fn notify(&self, seat: &mut Seat<J>) {
        self.store_notified(seat);
        if self.load_notify_me(seat) {
            self.set_notifier(seat);
        }
    }
}
