//! The device back, where nothing was served.
ghost use Rattle.std.specs.Prelude.{◌≡◌};
ghost use Rattle.stream_ends.specs.Images.{device_behind};
ghost use Rattle.stream_ends.specs.Starts.{HasBegun};

use crate::beginning::Begun;
use crate::gathering::gather;
use aio_model::Script;
use aio_words::Device;
use img_streams::{ImageRule, settle};

/// Gives back the device of a script that nobody has begun to serve, as it was handed in. Takes no memory.
pub fn give_back<D: Device>(script: &Script, begun: Begun<ImageRule<D>>) -> D
    requires { HasBegun D.bytes script.now (device_behind begun.lock) begun }
    ensures { result ≡ device_behind begun.lock }
{
    let _ = script;
    let Begun {
        lock,
        streams,
        mut ends,
    } = begun;
    gather(streams, &mut ends);
    let (passes, _rows, _ids, _served) = ends.into_parts();
    settle(lock, passes).into_device()
}
