//! Which streams are to be resumed.
ghost use Rattle.std.specs.Prelude.{◌≡◌};

use aio_model::NoMemory;
use co_state::Cx;
use co_waits::CoQueue;
use std::alloc::Global;

/// How many streams a script may have.
const STREAMS: u32 = 64;

/// Which streams are to be resumed, in the order in which they were woken.
#[derive(Debug, Drop)]
pub struct Woken {
    streams: CoQueue,
    ghost room: { streams.room ≡ 64 },
}

impl Woken {
    /// So many streams, each of which is to be resumed: stream 0 first.
    pub fn build(alloc: Global, many: u32) -> Result<Woken, NoMemory> {
        let streams = CoQueue::build(alloc, STREAMS)?;
        let mut woken = Woken { streams };
        for stream in 0..many {
            woken.wake(stream);
        }
        Ok(woken)
    }

    /// The stream is to be resumed, behind those that are already. One that is among them stays where it is. A number that
    /// no stream has is passed over.
    pub fn wake(&mut self, stream: u32) {
        if stream < STREAMS && !self.streams.has(stream) {
            self.streams.wait(stream);
        }
    }

    /// The same for all whom a resume asked to wake, in that order.
    pub fn wake_asked(&mut self, asked: &mut Cx) {
        while let Some(co) = asked.taken() {
            self.wake(co.co);
        }
    }

    /// Takes the stream that was woken first.
    pub fn next(&mut self) -> Option<u32> {
        self.streams.next()
    }
}
