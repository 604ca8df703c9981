//! What comes back from the loops: the coroutines of streams that have ended, and whether one of them asked that the loops end.
ghost use Rattle.std.specs.Prelude.{◌≡◌, ◌<◌, ◌≤◌, ◌||◌, ◌==◌, true, IsTrue, [], length, vec_capacity};
ghost use Rattle.img_streams.specs.Streams.{HasGone, IsStreamOf, source};
ghost use Rattle.stream_ends.specs.Stops.{HasStopped, HaveStopped};
ghost use Rattle.aio_run.specs.Berths.{BerthsAreOf, AreBerthed};
ghost use Rattle.aio_run.specs.Ends.{has_asked};

use aio_model::Script;
use aio_words::Device;
use co_loop::CoWork;
use co_mutex::CoMutex;
use co_state::Origin;
use img_streams::{ImageRule, StreamCo};
use loop_threads::LoopRun;
use std::sync::Wait;

/// Whether the coroutine has retired, and there is such a stream line.
fn has_stopped<D: Device>(script: &Script, number: usize, stream: &StreamCo<D>) -> bool
    ensures { IsTrue result → (number < length script.now.streams) × HasGone stream.now.at }
{
    number < script.streams.as_slice().len() && stream.has_gone()
}

/// Puts a coroutine that has ended at its place. It waits for ever where that isn't a coroutine of the script, or hasn't retired.
fn berth<D: Device, R: Wait>(
    rt: &R,
    lock: &CoMutex<ImageRule<D>>,
    script: &Script,
    stream: StreamCo<D>,
    berths: &mut Vec<Option<StreamCo<D>>>,
)
    requires of { IsStreamOf D.bytes stream (source lock.now script.now) }
    requires berths { AreBerthed D.bytes script.now lock.now berths.old.items }
    ensures berths { AreBerthed D.bytes script.now lock.now berths.new.items }
{
    let _ = lock;
    let number = stream.number() as usize;
    if !has_stopped(script, number, &stream) {
        for _ in rt.forever() {}
        unreachable!()
    }
    berths[number] = Some(stream);
}

/// Puts the one at this place, if one has ended there, at its own place.
fn take_one<D: Device, R: Wait>(
    rt: &R,
    lock: &CoMutex<ImageRule<D>>,
    script: &Script,
    ended: &mut Vec<Option<StreamCo<D>>>,
    at: usize,
    berths: &mut Vec<Option<StreamCo<D>>>,
)
    requires at { at < length ended.old.items }
    requires ended { BerthsAreOf D.bytes script.now lock.now ended.old.items }
    requires berths { AreBerthed D.bytes script.now lock.now berths.old.items }
    ensures ended { BerthsAreOf D.bytes script.now lock.now ended.new.items × (length ended.new.items ≡ length ended.old.items) }
    ensures berths { AreBerthed D.bytes script.now lock.now berths.new.items }
{
    if let Some(stream) = ended[at].take() {
        berth(rt, lock, script, stream, berths);
    }
}

/// Puts all that have ended on a loop at their places.
pub(crate) fn take_back<D: Device, R: Wait>(
    rt: &R,
    lock: &CoMutex<ImageRule<D>>,
    script: &Script,
    ended: Vec<Option<StreamCo<D>>>,
    berths: &mut Vec<Option<StreamCo<D>>>,
)
    requires ended { BerthsAreOf D.bytes script.now lock.now ended.items }
    requires berths { AreBerthed D.bytes script.now lock.now berths.old.items }
    ensures berths { AreBerthed D.bytes script.now lock.now berths.new.items }
{
    let mut ended = ended;
    for at in 0..ended.len() {
        take_one(rt, lock, script, &mut ended, at, berths);
    }
}

/// The coroutine at a place. It waits for ever where none came back.
fn back<D: Device, R: Wait>(
    rt: &R,
    lock: &CoMutex<ImageRule<D>>,
    script: &Script,
    berths: &mut Vec<Option<StreamCo<D>>>,
    number: usize,
) -> StreamCo<D>
    requires number { number < length berths.old.items }
    requires berths { AreBerthed D.bytes script.now lock.now berths.old.items }
    ensures berths { AreBerthed D.bytes script.now lock.now berths.new.items }
    ensures stopped { HasStopped D.bytes script.now lock.now number result }
{
    let _ = lock;
    let _ = script;
    match berths[number].take() {
        Some(stream) => stream,
        None => {
            for _ in rt.forever() {}
            unreachable!()
        }
    }
}

/// All coroutines, in the order of the stream lines. It waits for ever where one hasn't come back.
pub(crate) fn all_back<D: Device, R: Wait>(
    rt: &R,
    lock: &CoMutex<ImageRule<D>>,
    script: &Script,
    berths: Vec<Option<StreamCo<D>>>,
    room: Vec<StreamCo<D>>,
) -> Vec<StreamCo<D>>
    requires berths { AreBerthed D.bytes script.now lock.now berths.items }
    requires room { (room.items ≡ []) × (length script.now.streams ≤ vec_capacity room) }
    ensures { HaveStopped D.bytes script.now lock.now result.items }
{
    let mut berths = berths;
    let mut streams = room;
    for number in 0..berths.len() {
        streams.push_reserved(back(rt, lock, script, &mut berths, number));
    }
    streams
}

/// Whether a coroutine of some loop has asked that the loops end.
fn has_asked<C: Origin, K>(runs: &[LoopRun<C, CoWork<C, K>>]) -> bool
    ensures { result ≡ has_asked runs.now }
{
    runs.iter().any(|run| run.work.crew.quits)
}

/// Comes back where the script has no stream, and where a coroutine has asked that the loops end. Else it waits for ever.
pub(crate) fn see_asked<C: Origin, K, R: Wait>(
    rt: &R,
    script: &Script,
    runs: &[LoopRun<C, CoWork<C, K>>],
)
    ensures { (length script.now.streams == 0 || has_asked runs.now) ≡ true }
{
    if !script.streams.as_slice().is_empty() && !has_asked(runs) {
        for _ in rt.forever() {}
        unreachable!()
    }
}
