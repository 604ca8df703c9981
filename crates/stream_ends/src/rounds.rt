//! All coroutines of a script on the thread of the caller, resumed in rounds.
ghost use Rattle.std.specs.Prelude.{◌≡◌, ◌≤◌, IsTrue, IfOk, IfErr};
ghost use Rattle.aio_script.specs.Image.Bounds.{IsBounded};
ghost use Rattle.img_join.specs.Ended.{IsChargedFor};
ghost use Rattle.img_streams.specs.Streams.{HasGone, IsStreamOf, source};
ghost use Rattle.stream_ends.specs.Starts.{AllAt};
ghost use Rattle.stream_ends.specs.Stops.{AreGoing, HaveStopped, IsScriptServed};

use crate::beginning::{Begun, begin};
use crate::finishing::{Finished, finish};
use aio_model::{Script, Unmade};
use aio_words::{Device, Gate};
use co_mutex::CoMutex;
use co_state::{Co, CoStep, Cx};
use img_streams::{ImageRule, ServeEnv, StreamCo};
use std::alloc::Global;
use std::sync::Wait;

/// Resumes a coroutine once, and tells whether it has retired. Whom it wakes is resumed in any case.
fn resume_once<'a, D: Device, G: Gate, R: Wait>(
    co: &mut StreamCo<D>,
    env: &ServeEnv<'a, D, G, R>,
) -> bool
    requires of { IsStreamOf D.bytes co.old (source env.now.lock.now env.now.script.now) }
    ensures of { IsStreamOf D.bytes co.new (source env.now.lock.now env.now.script.now) }
    ensures same { co.new.co.co ≡ co.old.co.co }
    ensures gone { IsTrue result → HasGone co.new.at }
{
    let mut cx = Cx::fresh();
    matches!(co.resume(env, &mut cx), CoStep::Done)
}

/// Resumes each coroutine once, and tells whether all have retired.
fn resume_all<'a, D: Device, G: Gate, R: Wait>(
    streams: &mut Vec<StreamCo<D>>,
    env: &ServeEnv<'a, D, G, R>,
) -> bool
    requires going { AreGoing D.bytes env.now.script.now env.now.lock.now streams.old.items }
    ensures going { AreGoing D.bytes env.now.script.now env.now.lock.now streams.new.items }
    ensures stopped { IsTrue result → HaveStopped D.bytes env.now.script.now env.now.lock.now streams.new.items }
{
    let mut all = true;
    for place in 0..streams.len() {
        let gone = resume_once(&mut streams[place], env);
        all = all & gone;
    }
    all
}

/// Resumes the coroutines in rounds until all have retired. A stream that sleeps is resumed in the next round, and one
/// that moves goes on where it is.
pub fn carry<D: Device, G: Gate, R: Wait>(
    rt: &R,
    lock: &CoMutex<ImageRule<D>>,
    script: &Script,
    gate: &G,
    streams: &mut Vec<StreamCo<D>>,
)
    requires { AreGoing D.bytes script.now lock.now streams.old.items }
    ensures { HaveStopped D.bytes script.now lock.now streams.new.items }
{
    let env = ServeEnv {
        rt,
        lock,
        script,
        gate,
    };
    for _ in rt.forever() {
        if resume_all(streams, &env) {
            return;
        }
    }
    unreachable!()
}

/// Serves a script on a device by its coroutines, all on the thread of the caller. Delays take no time. Want of memory
/// hands the device back as it was.
pub fn serve_in_rounds<D: Device, G: Gate, R: Wait>(
    rt: &R,
    alloc: Global,
    script: &Script,
    device: D,
    gate: &G,
) -> Result<Finished<D>, Unmade<D>>
    requires bounded { IsBounded script.now }
    requires fits { script.now.image ≤ D.extent device }
    ensures serves { IfOk result (λ done. IsScriptServed script.now (D.bytes device) (D.bytes done.device) done.served.items) }
    ensures charged { IfOk result (λ done. IsChargedFor D.extent D.faults D.size_faults D.calls script.now.image device done.device done.served.items) }
    ensures unmade { IfErr result (λ unmade. unmade.back ≡ device) }
{
    let begun = begin(alloc, script, device)?;
    let Begun {
        lock,
        mut streams,
        ends,
    } = begun;
    carry(rt, &lock, script, gate, &mut streams);
    Ok(finish(lock, streams, script, ends))
}
