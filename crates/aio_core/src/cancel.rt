//! A cancel from any thread, after qemu_bh_cancel of QEMU's util/async.c.
ghost use Rattle.std.specs.Prelude.{◌≡◌, ◌<◌};
ghost use Rattle.aio_core.specs.Standing.{Cancels};
ghost use Rattle.aio_core.specs.Plays.{Canceled};
ghost use Rattle.aio_core.specs.Calls.{IsSeatOf};

use crate::job::Job;
use crate::plays::Cancel;
use crate::seat::Seat;
use crate::table::LoopTable;
use crate::words::flags_word;
use aio_model::Flags;

impl<J: Job> LoopTable<J> {
    fn clear_scheduled(&self, seat: &mut Seat<J>, bh: u32) -> u64
        requires seat { IsSeatOf self.now seat.old }
        requires handle { bh < self.now.sizes.handles }
        ensures seat { IsSeatOf self.now seat.new }
        ensures step { Canceled bh result seat.old.known seat.new.known }
    {
        self.table
            .shared
            .fetch_and::<Cancel>(&mut seat.inner, flags_word(bh), !Flags::SCHEDULED)
    }

    /// Clears the mark of a call to come, by one atomic step, and answers the flags that it found. The handle stays in the
    /// list where it is in it, and nobody is woken. Any thread, with a seat of its own.
    pub fn cancel(&self, seat: &mut Seat<J>, bh: u32) -> Flags
        requires seat { IsSeatOf self.now seat.old }
        requires handle { bh < self.now.sizes.handles }
        ensures seat { IsSeatOf self.now seat.new }
        ensures step { Cancels bh result seat.old.known seat.new.known }
    {
        let found = self.clear_scheduled(seat, bh);
        Flags::from_word(found)
    }
}
