//! Coroutines that a test resumes itself.
ghost use Rattle.std.specs.Prelude.{◌≤◌};
ghost use Rattle.aio_script.specs.Image.Bounds.{IsBounded};
ghost use Rattle.stream_ends.specs.Images.{IsLockFor};
ghost use Rattle.stream_ends.specs.Starts.{HasBegun, IsEndRoom};
ghost use Rattle.stream_ends.specs.Stops.{AreGoing};

use aio_model::Script;
use aio_words::{Device, OpenGate};
use co_mutex::CoMutex;
use img_streams::{ImageRule, StreamCo};
use std::alloc::Global;
use std::process::Abort;
use std::sync::Wait;
use stream_ends::{Begun, EndRoom, Finished, begin, carry, finish};

/// A script's coroutines, none of which has been resumed.
pub fn begin_on<D: Device, R: Abort>(
    rt: &R,
    alloc: Global,
    script: &Script,
    device: D,
) -> Begun<ImageRule<D>>
    requires bounded { IsBounded script.now }
    requires fits { script.now.image ≤ D.extent device }
    ensures begun { HasBegun D.bytes script.now device result }
{
    match begin(alloc, script, device) {
        Ok(begun) => begun,
        Err(_) => panic!(rt; "there is memory"),
    }
}

/// Serves what is left, and ends.
pub fn serve_rest<D: Device, R: Wait>(
    rt: &R,
    lock: CoMutex<ImageRule<D>>,
    mut streams: Vec<StreamCo<D>>,
    script: &Script,
    ends: EndRoom<ImageRule<D>>,
) -> Finished<D>
    requires bounded { IsBounded script.now }
    requires lock { IsLockFor script.now lock }
    requires going { AreGoing D.bytes script.now lock streams.items }
    requires room { IsEndRoom script.now lock ends }
{
    carry(rt, &lock, script, &OpenGate, &mut streams);
    finish(lock, streams, script, ends)
}
