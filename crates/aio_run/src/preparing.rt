//! What a run of a script begins with.
ghost use Rattle.std.specs.Prelude.{◌≡◌, ◌≤◌, IfOk, IfErr, vec_len};
ghost use Rattle.aio_script.specs.Image.Bounds.{IsBounded};
ghost use Rattle.co_loop.specs.Working.{CanWork};
ghost use Rattle.img_streams.specs.Streams.{IsStreamAt, source};
ghost use Rattle.stream_ends.specs.Starts.{HaveStarted};
ghost use Rattle.stream_ends.specs.Images.{device_behind};
ghost use Rattle.aio_run.specs.Readiness.{AreOpen, ArePosted, HasPostedAll};

use crate::opening::{Loops, open_for};
use crate::posting::post_each;
use aio_model::{NoMemory, Script, Unmade};
use aio_words::{Clock, Device};
use co_mutex::{CoMutex, LockRule};
use co_state::Origin;
use img_streams::{ImageRule, StreamCo};
use loop_rows::Opened;
use std::alloc::Global;
use std::sync::Wait;
use stream_ends::{Begun, EndRoom, begin, give_back};

/// All that serving a script by its loops needs. The device lies behind the lock, and each stream's coroutine, with its pass of the
/// lock, was posted to its home.
pub struct Prepared<P: LockRule, C: Origin, K> {
    pub(crate) lock: CoMutex<P>,
    pub(crate) room: EndRoom<P>,
    pub(crate) loops: Loops<C, K>,
}

/// What is prepared for a script on a device.
pub type ScriptRun<D, K> = Prepared<ImageRule<D>, StreamCo<D>, K>;

/// Posts each stream's coroutine to its home. It takes no memory.
fn post_streams<D: Device, K: Clock + Drop, R: Wait>(
    rt: &R,
    lock: &CoMutex<ImageRule<D>>,
    script: &Script,
    streams: Vec<StreamCo<D>>,
    loops: Loops<StreamCo<D>, K>,
) -> Loops<StreamCo<D>, K>
    requires bounded { IsBounded script.now }
    requires started { HaveStarted D.bytes script.now lock.now streams.items }
    requires open { AreOpen (CanWork (λ k c o. IsStreamAt D.bytes k c o)) script.now (source lock.now script.now) loops }
    ensures { ArePosted (CanWork (λ k c o. IsStreamAt D.bytes k c o)) script.now (source lock.now script.now) result }
{
    let Loops {
        opened,
        hands,
        reserved,
        berths,
        streams: room,
        ends,
    } = loops;
    let Opened {
        shared,
        homes,
        mut row,
    } = opened;
    post_each(rt, &shared, &mut row, lock, script, streams);
    Loops {
        opened: Opened { shared, homes, row },
        hands,
        reserved,
        berths,
        streams: room,
        ends,
    }
}

/// Takes all memory that serving the script by its loops needs, and posts each stream's coroutine to its home. Each loop has one of the
/// clocks, in order. At want of memory the device comes back as it was handed in.
pub fn prepare<D: Device + Drop, K: Clock + Drop, R: Wait>(
    rt: &R,
    alloc: Global,
    script: &Script,
    device: D,
    clocks: Vec<K>,
) -> Result<ScriptRun<D, K>, Unmade<D>>
    requires bounded { IsBounded script.now }
    requires fits { script.now.image ≤ D.extent device }
    requires clocks { vec_len clocks ≡ script.now.loops }
    ensures ready { IfOk result (λ ready. HasPostedAll (CanWork (λ k c o. IsStreamAt D.bytes k c o)) script.now (λ lock. source lock script.now) ready) }
    ensures behind { IfOk result (λ ready. device_behind ready.lock ≡ device) }
    ensures unmade { IfErr result (λ unmade. unmade.back ≡ device) }
{
    let begun = begin(alloc, script, device)?;
    match open_for::<StreamCo<D>, K, CoMutex<ImageRule<D>>, R>(
        rt,
        alloc,
        &begun.lock,
        script,
        clocks,
    ) {
        Ok(loops) => {
            let Begun {
                lock,
                streams,
                ends: room,
            } = begun;
            let loops = post_streams(rt, &lock, script, streams, loops);
            Ok(Prepared { lock, room, loops })
        }
        Err(NoMemory) => Err(Unmade {
            back: give_back(script, begun),
        }),
    }
}
