//! Serves a script on one thread, each stream resumed as a wake names it.
ghost use Rattle.std.specs.Prelude.{◌≡◌, ◌≤◌, IfOk, IfErr, length};
ghost use Rattle.aio_script.specs.Image.Bounds.{IsBounded};
ghost use Rattle.stream_ends.specs.Images.{device_behind};
ghost use Rattle.stream_ends.specs.Starts.{HasBegun};
ghost use Rattle.stream_ends.specs.Stops.{IsScriptServed};

use crate::carrying::carry_woken;
use crate::tally::Tally;
use crate::woken::Woken;
use aio_model::{Script, Unmade};
use aio_words::{Device, Gate};
use img_streams::{ImageRule, ServeEnv};
use std::alloc::Global;
use std::sync::Wait;
use stream_ends::{Begun, Finished, begin, carry, finish};

/// What serving a script came to, and how the run went.
#[derive(Drop)]
pub struct Carried<D> {
    pub done: Finished<D>,
    pub tally: Tally,
}

/// Serves what was begun.
fn carry_all<D: Device, G: Gate, R: Wait>(
    rt: &R,
    begun: Begun<ImageRule<D>>,
    script: &Script,
    gate: &G,
    mut woken: Woken,
) -> Carried<D>
    requires bounded { IsBounded script.now }
    requires begun { HasBegun D.bytes script.now (device_behind begun.lock) begun }
    ensures serves { IsScriptServed script.now (D.bytes (device_behind begun.lock)) (D.bytes result.done.device) result.done.served.items }
    ensures few { length result.done.served.items ≤ 4096 }
{
    let Begun {
        lock,
        mut streams,
        ends,
    } = begun;
    let env = ServeEnv {
        rt,
        lock: &lock,
        script,
        gate,
    };
    let tally = carry_woken(&env, &mut streams, &mut woken);
    carry(rt, &lock, script, gate, &mut streams);
    Carried {
        done: finish(lock, streams, script, ends),
        tally,
    }
}

/// Serves a script on a device by its coroutines, all on the thread of the caller: each is resumed when a wake has named
/// it. Delays take no time. Should a wake be lost, those that are left are resumed in rounds. Want of memory hands the
/// device back as it was.
pub fn serve_by_wakes<D: Device, G: Gate, R: Wait>(
    rt: &R,
    alloc: Global,
    script: &Script,
    device: D,
    gate: &G,
) -> Result<Carried<D>, Unmade<D>>
    requires bounded { IsBounded script.now }
    requires fits { script.now.image ≤ D.extent device }
    ensures serves { IfOk result (λ carried. IsScriptServed script.now (D.bytes device) (D.bytes carried.done.device) carried.done.served.items) }
    ensures few { IfOk result (λ carried. length carried.done.served.items ≤ 4096) }
    ensures unmade { IfErr result (λ unmade. unmade.back ≡ device) }
{
    let Ok(woken) = Woken::build(alloc, script.streams.as_slice().len() as u32) else {
        return Err(Unmade { back: device });
    };
    let begun = begin(alloc, script, device)?;
    Ok(carry_all(rt, begun, script, gate, woken))
}
