//! The coroutine of a stream, and what it is lent.
ghost use Rattle.std.specs.Prelude.{◌≡◌, IsTrue};
ghost use Rattle.aio_model.specs.declared.scripts.image_scripts.Script.{Script};
ghost use Rattle.co_mutex.specs.declared.lock.CoMutex.{CoMutex};
ghost use Rattle.img_streams.specs.Rooms.{CanStart};
ghost use Rattle.img_streams.specs.Streams.{IsStreamOf, source, HasGone};

use crate::progress::At;
use crate::room::Room;
use crate::rule::ImageRule;
use aio_model::Script;
use aio_words::{Device, Gate};
use co_mutex::{CoMutex, LockRule, Pass};
use co_state::{Co, CoId, CoStep, Cx, Origin};
use std::collections::VecDeque;
use std::sync::Wait;

/// The coroutine of a stream, by the rule of its lock. It holds no reference: lock, script and gate are lent to it at each
/// resume.
pub struct Stream<P: LockRule> {
    pub(crate) pass: Pass<P>,
    /// Whether the pass is queued.
    pub(crate) queued: bool,
    /// The stream's number, which is that of its pass, and the loop on which it is.
    pub(crate) co: CoId,
    /// The stream's number in the script's lines.
    pub(crate) id: u32,
    /// Where its lines stand in the script, first to last.
    pub(crate) places: Vec<usize>,
    /// The line at hand, or the first that wasn't looked at.
    pub(crate) line: usize,
    /// How many of its requests have their replies.
    pub(crate) index: u32,
    pub(crate) at: At,
    /// The buffers of the requests that have their replies, of the next one, and of those after it.
    pub(crate) filled: Vec<Vec<u8>>,
    pub(crate) buffer: Vec<u8>,
    pub(crate) later: VecDeque<Vec<u8>>,
}

impl<P: LockRule> Drop for Stream<P> {
    fn drop(self) {
        let Self {
            pass: _,
            queued: _,
            co: _,
            id: _,
            places: _,
            line: _,
            index: _,
            at: _,
            filled: _,
            buffer: _,
            later: _,
        } = self;
    }
}

impl<D: Device> Stream<ImageRule<D>> {
    /// The coroutine of a stream that has made no call yet: of its pass and its number with its home, its id in the script,
    /// and its memory.
    pub fn of(pass: Pass<ImageRule<D>>, co: CoId, id: u32, room: Room) -> Stream<ImageRule<D>>
        ensures is { (result.pass ≡ pass) × (result.co ≡ co) × (result.id ≡ id) }
        ensures first { (result.at ≡ At.Between) × (result.line ≡ 0) × (result.index ≡ 0) }
        ensures of { (lock : CoMutex _ _ _) (script : Script) → CanStart lock script pass co id room → IsStreamOf D.bytes result (source lock script) }
    {
        Stream {
            pass,
            queued: false,
            co,
            id,
            places: room.places,
            line: 0,
            index: 0,
            at: At::Between,
            filled: room.filled,
            buffer: room.buffer,
            later: room.later,
        }
    }
}

impl<P: LockRule> Stream<P> {
    /// The stream's number, which is the place of its stream line.
    pub fn number(&self) -> u32
        ensures { result ≡ self.now.co.co }
    {
        self.co.co
    }

    /// Whether the stream has retired.
    pub fn has_gone(&self) -> bool
        ensures { IsTrue result → HasGone self.now.at }
    {
        matches!(self.at, At::Gone)
    }

    pub(crate) fn apart(self) -> (Pass<P>, Vec<Vec<u8>>)
        ensures pass { result.0 ≡ self.pass }
        ensures filled { result.1 ≡ self.filled }
    {
        let Self {
            pass,
            queued: _,
            co: _,
            id: _,
            places: _places,
            line: _,
            index: _,
            at: _,
            filled,
            buffer: _buffer,
            later: _later,
        } = self;
        (pass, filled)
    }
}

/// The coroutine of a stream on an image.
pub type StreamCo<D> = Stream<ImageRule<D>>;

/// What a loop lends to the coroutines of streams. `rt` is the leave to wait.
#[derive(Drop)]
pub struct ServeEnv<'a, D: Device, G: Gate, R: Wait> {
    pub rt: &'a R,
    pub lock: &'a CoMutex<ImageRule<D>>,
    pub script: &'a Script,
    pub gate: &'a G,
}

impl<D: Device> Origin for Stream<ImageRule<D>> {
    ghost use Rattle.img_streams.specs.Streams.{IsStreamAt};

    type Source = (CoMutex<ImageRule<D>>, Script);

    ghost is_of = { λ number c o. IsStreamAt D.bytes number c o };
}

impl<'a, D: Device, G: Gate, R: Wait> Co<ServeEnv<'a, D, G, R>> for Stream<ImageRule<D>> {
    ghost use Rattle.img_streams.specs.Streams.{Resumes, source};

    ghost source_of = { λ env. source env.lock.now env.script.now };

    ghost resumes = { λ c o wants step d. Resumes D.bytes c o wants step d };

    fn resume(&mut self, env: &ServeEnv<'a, D, G, R>, cx: &mut Cx) -> CoStep {
        match self.at {
            At::Between => self.begin(env, cx),
            At::Entering(_) => self.enter(env, cx),
            At::Waiting => self.take_up(env, cx),
            At::Serving => self.serve(env, cx),
            At::Ended => self.leave(env, cx),
            At::Retiring => self.retire(env, cx),
            At::Gone => CoStep::Done,
        }
    }
}
