//! From a script and a device to a lock and a coroutine for each stream.
ghost use Rattle.std.specs.Prelude.{◌≡◌, ◌≤◌, ◌<◌, ◌∷◌, [], IfOk, IfErr, length, slice_index, vec_capacity};
ghost use Rattle.aio_script.specs.Image.Bounds.{IsBounded};
ghost use Rattle.co_mutex.specs.Passes.{IsNew};
ghost use Rattle.img_streams.specs.Rooms.{IsRoomFor};
ghost use Rattle.stream_ends.specs.Images.{IsLockFor, device_behind, ids_of_lines};
ghost use Rattle.stream_ends.specs.Starts.{AreNewPasses, HasBegun, HasStarted, AreRoomsFor};

use crate::room::{EndRoom, Rooms};
use aio_model::{Script, Unmade};
use aio_words::Device;
use co_mutex::{CoMutex, LockRule, Pass};
use co_state::CoId;
use img_shared::Image;
use img_streams::{BoxedImage, ImageRule, Room, Stream, StreamCo};
use std::alloc::Global;
use std::collections::VecDeque;

/// What serving a script takes on the image's side.
pub struct Begun<P: LockRule> {
    /// The lock that the image lies behind.
    pub lock: CoMutex<P>,
    /// A coroutine for each stream line of the script, in their order. None has made a call.
    pub streams: Vec<Stream<P>>,
    /// What `finish` needs besides.
    pub ends: EndRoom<P>,
}

fn take_first<T>(queue: &mut VecDeque<T>) -> T
    requires { 0 < length queue.old.items }
    ensures { queue.old.items ≡ result ∷ queue.new.items }
{
    let Some(first) = queue.pop_front() else {
        unreachable!()
    };
    first
}

/// The coroutine of the script's stream line of this number.
fn started<D: Device>(
    lock: &CoMutex<ImageRule<D>>,
    script: &Script,
    number: u32,
    pass: Pass<ImageRule<D>>,
    room: Room,
) -> StreamCo<D>
    requires bounded { IsBounded script.now }
    requires lock { IsLockFor script.now lock.now }
    requires known { number < length script.now.streams }
    requires new { IsNew lock.now number pass }
    requires room { IsRoomFor script.now.lines (slice_index (ids_of_lines script.now.streams) number) room }
    ensures { HasStarted D.bytes script.now lock.now number result }
{
    let _ = lock;
    let stream = script.streams.as_slice()[number as usize];
    let co = CoId {
        co: number,
        home: stream.home,
    };
    Stream::of(pass, co, stream.id, room)
}

/// Keeps a pass that is left.
fn keep<P: LockRule>(mut passes: VecDeque<Pass<P>>, kept: &mut Vec<Pass<P>>)
    requires few { length passes.items ≤ 1 }
    requires none { kept.old.items ≡ [] }
    requires room { 1 ≤ vec_capacity kept.old }
    ensures kept { kept.new.items ≡ passes.items }
    ensures room { vec_capacity kept.new ≡ vec_capacity kept.old }
{
    if let Some(pass) = passes.pop_front() {
        kept.push_reserved(pass);
    }
}

/// Gives each stream its pass and its memory. Takes no memory.
fn deal<D: Device>(
    script: &Script,
    lock: CoMutex<ImageRule<D>>,
    passes: Vec<Pass<ImageRule<D>>>,
    rooms: Rooms<ImageRule<D>>,
) -> Begun<ImageRule<D>>
    requires bounded { IsBounded script.now }
    requires lock { IsLockFor script.now lock }
    requires passes { AreNewPasses lock passes.items }
    requires rooms { AreRoomsFor script.now rooms }
    ensures { HasBegun D.bytes script.now (device_behind lock) result }
{
    let (mut rooms, mut streams, mut ends) = rooms.into_parts();
    let mut passes = VecDeque::from_vec(passes);
    let many = script.streams.as_slice().len() as u32;
    for number in 0..many {
        let pass = take_first(&mut passes);
        let room = take_first(&mut rooms);
        streams.push_reserved(started(&lock, script, number, pass, room));
    }
    keep(passes, &mut ends.passes);
    Begun {
        lock,
        streams,
        ends,
    }
}

/// Takes all memory that serving the script needs on the image's side: the image over the device, its lock, the
/// coroutines of the streams, and room for the end. Each coroutine's number is the place of its stream line, and its home
/// is that line's. Want of memory hands the device back as it was.
pub fn begin<D: Device>(
    alloc: Global,
    script: &Script,
    device: D,
) -> Result<Begun<ImageRule<D>>, Unmade<D>>
    requires bounded { IsBounded script.now }
    requires fits { script.now.image ≤ D.extent device }
    ensures begun { IfOk result (HasBegun D.bytes script.now device) }
    ensures unmade { IfErr result (λ unmade. unmade.back ≡ device) }
{
    let Ok(rooms) = Rooms::build(alloc, script) else {
        return Err(Unmade { back: device });
    };
    let image = Image::build(alloc, device, script.image, rooms.counts.as_slice())?;
    let image = BoxedImage::build(alloc, image)?;
    let many = script.streams.as_slice().len() as u32;
    match CoMutex::<ImageRule<D>>::build(alloc, image, many.max(1)) {
        Ok((lock, passes)) => Ok(deal(script, lock, passes, rooms)),
        Err(unmade) => Err(Unmade {
            back: unmade.back.into_image().into_device(),
        }),
    }
}
