//! A set of timers, all of which are made.
ghost use Rattle.std.specs.Prelude.{◌≡◌, ◌<◌, IfOk};

use aio_timers::{NoMemory, TimerId, Timers};
use std::alloc::Global;
use std::io;

/// As many timers as there is room for.
#[derive(Drop)]
pub struct Armed {
    timers: Timers,
    ghost all_made: { timers.made ≡ timers.room },
}

/// A set with room for so many, none of them made.
fn unmade(alloc: Global, room: u32) -> io::Result<Timers>
    ensures made { IfOk result (λ timers. timers.made ≡ 0) }
    ensures room { IfOk result (λ timers. timers.room ≡ room) }
{
    match Timers::build(alloc, room) {
        Ok(timers) => Ok(timers),
        Err(NoMemory) => Err(io::Error::from(io::ErrorKind::OutOfMemory)),
    }
}

impl Armed {
    pub fn build(alloc: Global, room: u32) -> io::Result<Armed>
        ensures { IfOk result (λ armed. armed.timers.room ≡ room) }
    {
        let mut timers = unmade(alloc, room)?;
        while let Some(id) = timers.add() {
            timers.arm(id, i64::from(id.number));
        }
        Ok(Armed { timers })
    }

    /// Disarms a timer, and arms it again. Whether it was armed.
    pub fn rearm(&mut self, number: u32, expire: i64) -> bool
        requires { number < self.old.timers.room }
        ensures { self.new.timers.room ≡ self.old.timers.room }
    {
        let id = TimerId { number };
        let was_armed = self.timers.disarm(id);
        self.timers.arm(id, expire);
        was_armed
    }

    pub fn first(&self) -> Option<u64> {
        self.timers.first()
    }
}
