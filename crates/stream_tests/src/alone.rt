//! A stream that is alone, from its first resume to its end.
ghost use Rattle.std.specs.Prelude.{◌≡◌, ◌∷◌, []};
ghost use Rattle.co_mutex.specs.Passes.{passes_of};
ghost use Rattle.img_streams.specs.Rooms.{CanStart};
ghost use Rattle.img_streams.specs.Streams.{IsStreamOf, HasGone, source};

use aio_model::Script;
use aio_words::{Device, OpenGate};
use co_mutex::{CoMutex, Pass};
use co_state::{Co, CoId, CoStep, Cx};
use img_shared::Image;
use img_streams::{ImageRule, Room, ServeEnv, Stream, StreamCo, settle};
use std::alloc::Global;
use std::process::Abort;
use std::sync::Wait;

/// How often each step came, and how often the coroutine woke itself.
#[derive(Clone, Copy, Debug, PartialEq, Eq)]
pub struct Tally {
    pub yields: u32,
    pub sleeps: u32,
    pub moves: u32,
    pub wakes: u32,
    pub quits: u32,
}

impl Tally {
    fn none() -> Tally {
        Tally {
            yields: 0,
            sleeps: 0,
            moves: 0,
            wakes: 0,
            quits: 0,
        }
    }

    /// Counts a resume.
    fn count(&mut self, step: CoStep, cx: &mut Cx) {
        match step {
            CoStep::Done => {}
            CoStep::Yield => self.yields = self.yields.wrapping_add(1),
            CoStep::Sleep(_) => self.sleeps = self.sleeps.wrapping_add(1),
            CoStep::Move(_) => self.moves = self.moves.wrapping_add(1),
        }
        if cx.quits() {
            self.quits = self.quits.wrapping_add(1);
        }
        if cx.taken().is_some() {
            self.wakes = self.wakes.wrapping_add(1);
        }
    }
}

/// Resumes the coroutine until it is done.
fn carry<D: Device, R: Wait>(
    rt: &R,
    lock: &CoMutex<ImageRule<D>>,
    script: &Script,
    co: &mut StreamCo<D>,
) -> Tally
    requires of { IsStreamOf D.bytes co.old (source lock.now script.now) }
    ensures of { IsStreamOf D.bytes co.new (source lock.now script.now) }
    ensures gone { HasGone co.new.at }
{
    let env = ServeEnv {
        rt,
        lock,
        script,
        gate: &OpenGate,
    };
    let mut tally = Tally::none();
    for _ in rt.forever() {
        let mut cx = Cx::fresh();
        let step = co.resume(&env, &mut cx);
        tally.count(step, &mut cx);
        if let CoStep::Done = step {
            return tally;
        }
    }
    unreachable!()
}

/// The passes of a lock that has one.
fn only<D: Device, R: Abort>(
    rt: &R,
    alloc: Global,
    pass: Pass<ImageRule<D>>,
) -> Vec<Pass<ImageRule<D>>>
    ensures { result.items ≡ pass ∷ [] }
{
    let mut passes = match Vec::with_capacity(alloc, 1) {
        Ok(passes) => passes,
        Err(_) => panic!(rt; "there is memory"),
    };
    passes.push_reserved(pass);
    passes
}

/// Serves the lines of a script's one stream, of id 0, and closes the lock.
pub fn serve_alone<D: Device, R: Wait + Abort>(
    rt: &R,
    alloc: Global,
    lock: CoMutex<ImageRule<D>>,
    pass: Pass<ImageRule<D>>,
    script: &Script,
    room: Room,
) -> (Image<D>, Tally)
    requires can { CanStart lock script.now pass (record { co = 0; home = 0 }) 0 room }
    requires one { passes_of lock ≡ 1 }
{
    let mut co = Stream::of(pass, CoId { co: 0, home: 0 }, 0, room);
    let tally = carry(rt, &lock, script, &mut co);
    let (pass, _filled) = co.into_parts();
    let image = settle(lock, only(rt, alloc, pass));
    (image, tally)
}
