//! Coroutines are resumed as they are woken.
ghost use Rattle.std.specs.Prelude.{◌≡◌, ◌<◌, length};
ghost use Rattle.co_state.specs.Wants.{nothing_asked};
ghost use Rattle.img_streams.specs.Streams.{IsStreamOf, source};
ghost use Rattle.stream_ends.specs.Stops.{AreGoing};

use crate::tally::Tally;
use crate::woken::Woken;
use aio_words::{Device, Gate};
use co_state::{Co, CoStep, Cx};
use img_streams::{ServeEnv, StreamCo};
use std::sync::Wait;

fn resume_one<D: Device, G: Gate, R: Wait>(
    env: &ServeEnv<'_, D, G, R>,
    co: &mut StreamCo<D>,
    cx: &mut Cx,
) -> CoStep
    requires of { IsStreamOf D.bytes co.old (source env.now.lock.now env.now.script.now) }
    requires fresh { cx.old ≡ nothing_asked }
    ensures of { IsStreamOf D.bytes co.new (source env.now.lock.now env.now.script.now) }
    ensures same { co.new.co.co ≡ co.old.co.co }
{
    co.resume(env, cx)
}

/// Resumes the coroutine at this place.
pub fn resume_at<D: Device, G: Gate, R: Wait>(
    env: &ServeEnv<'_, D, G, R>,
    streams: &mut Vec<StreamCo<D>>,
    place: usize,
    cx: &mut Cx,
) -> CoStep
    requires inside { place < length streams.old.items }
    requires going { AreGoing D.bytes env.now.script.now env.now.lock.now streams.old.items }
    requires fresh { cx.old ≡ nothing_asked }
    ensures going { AreGoing D.bytes env.now.script.now env.now.lock.now streams.new.items }
{
    resume_one(env, &mut streams[place], cx)
}

/// Resumes a stream that was woken, and wakes whom it asked for. A sleep ends at once, and a move leads to this thread.
fn carry_one<D: Device, G: Gate, R: Wait>(
    env: &ServeEnv<'_, D, G, R>,
    streams: &mut Vec<StreamCo<D>>,
    stream: u32,
    woken: &mut Woken,
    tally: &mut Tally,
)
    requires going { AreGoing D.bytes env.now.script.now env.now.lock.now streams.old.items }
    ensures going { AreGoing D.bytes env.now.script.now env.now.lock.now streams.new.items }
{
    let place = stream as usize;
    if place >= streams.len() {
        return;
    }
    let mut cx = Cx::fresh();
    let step = resume_at(env, streams, place, &mut cx);
    tally.count(&cx);
    match step {
        CoStep::Yield | CoStep::Done => {}
        CoStep::Sleep(_) | CoStep::Move(_) => woken.wake(stream),
    }
    woken.wake_asked(&mut cx);
}

/// How many of the coroutines haven't retired.
fn count_left<D: Device>(streams: &[StreamCo<D>]) -> u64 {
    let mut left = 0u64;
    for co in streams {
        left = left.wrapping_add(u64::from(!co.has_gone()));
    }
    left
}

/// Resumes streams that are woken, in the order of their wakes, until none is left.
pub fn carry_woken<D: Device, G: Gate, R: Wait>(
    env: &ServeEnv<'_, D, G, R>,
    streams: &mut Vec<StreamCo<D>>,
    woken: &mut Woken,
) -> Tally
    requires going { AreGoing D.bytes env.now.script.now env.now.lock.now streams.old.items }
    ensures going { AreGoing D.bytes env.now.script.now env.now.lock.now streams.new.items }
{
    let mut tally = Tally::none();
    for _ in env.rt.forever() {
        let Some(stream) = woken.next() else {
            tally.left = count_left(streams.as_slice());
            return tally;
        };
        carry_one(env, streams, stream, woken, &mut tally);
    }
    unreachable!()
}
