//! From coroutines that have retired to the replies and the device.
ghost use Rattle.std.specs.Prelude.{◌≤◌, length};
ghost use Rattle.aio_script.specs.Image.Bounds.{IsBounded};
ghost use Rattle.img_join.specs.Ended.{IsChargedFor};
ghost use Rattle.stream_ends.specs.Images.{IsLockFor, device_behind};
ghost use Rattle.stream_ends.specs.Starts.{IsEndRoom};
ghost use Rattle.stream_ends.specs.Stops.{HaveStopped, IsScriptServed};

use crate::gathering::gather;
use crate::room::EndRoom;
use aio_model::{Placed, Script};
use aio_words::Device;
use co_mutex::CoMutex;
use img_join::{Buffers, finish as join};
use img_streams::{ImageRule, StreamCo, settle};

/// What serving a script came to.
#[derive(Drop)]
pub struct Finished<D> {
    pub device: D,
    /// The replies, each at its place.
    pub served: Vec<Placed>,
}

/// Ends the serving of a script: takes the lock, the coroutines and the room that `begin` gave, the coroutines in the
/// order of the stream lines, when all have retired. Takes no memory, and has no refusal.
pub fn finish<D: Device>(
    lock: CoMutex<ImageRule<D>>,
    streams: Vec<StreamCo<D>>,
    script: &Script,
    mut ends: EndRoom<ImageRule<D>>,
) -> Finished<D>
    requires bounded { IsBounded script.now }
    requires lock { IsLockFor script.now lock }
    requires stopped { HaveStopped D.bytes script.now lock streams.items }
    requires room { IsEndRoom script.now lock ends }
    ensures serves { IsScriptServed script.now (D.bytes (device_behind lock)) (D.bytes result.device) result.served.items }
    ensures few { length result.served.items ≤ 4096 }
    ensures charged { IsChargedFor D.extent D.faults D.size_faults D.calls script.now.image (device_behind lock) result.device result.served.items }
{
    let _ = script;
    gather(streams, &mut ends);
    let (passes, rows, ids, mut served) = ends.into_parts();
    let image = settle(lock, passes);
    prove!(image.journal().len() <= served.capacity());
    let device = join(image, ids.as_slice(), Buffers::of(rows), &mut served);
    Finished { device, served }
}
