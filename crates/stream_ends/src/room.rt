//! The memory that serving takes on the image's side.
ghost use Rattle.std.specs.Prelude.{◌≡◌, ◌≤◌, ◌<◌, ◌^◌, [], IfOk, length, vec_capacity};
ghost use Rattle.std.specs.List.{All};
ghost use Rattle.aio_script.specs.Image.Bounds.{IsBounded};
ghost use Rattle.stream_ends.specs.Images.{counts_for, ids_of_lines};
ghost use Rattle.stream_ends.specs.Starts.{HaveRooms, IsEmptyRoom, AreRoomsFor};

use aio_model::{NoMemory, Placed, Script};
use co_mutex::{LockRule, Pass};
use img_streams::{LineLinks, Room, Stream};
use std::alloc::{AllocError, Global};
use std::collections::VecDeque;

/// The memory for the end of serving. `begin` takes it, and `finish` uses it.
pub struct EndRoom<P: LockRule> {
    /// Where the script has no stream, the lock's one pass; else none yet.
    pub(crate) passes: Vec<Pass<P>>,
    pub(crate) rows: Vec<VecDeque<Vec<u8>>>,
    /// The ids of the streams, in the order of their lines.
    pub(crate) ids: Vec<u32>,
    pub(crate) served: Vec<Placed>,
}

impl<P: LockRule> Drop for EndRoom<P> {
    fn drop(self) {
        let Self {
            passes: _,
            rows: _,
            ids: _,
            served: _,
        } = self;
    }
}

impl<P: LockRule> EndRoom<P> {
    /// The passes, the rows of buffers, the ids and the room for replies.
    pub(crate) fn into_parts(self) -> (Vec<Pass<P>>, Vec<VecDeque<Vec<u8>>>, Vec<u32>, Vec<Placed>)
        ensures { result ≡ (self.passes, self.rows, self.ids, self.served) }
    {
        let Self {
            passes,
            rows,
            ids,
            served,
        } = self;
        (passes, rows, ids, served)
    }
}

/// What is taken before the lock is built: how many requests each stream has, the memory of each, and room for the
/// coroutines and for the end.
pub(crate) struct Rooms<P: LockRule> {
    pub(crate) counts: Vec<u32>,
    pub(crate) rooms: VecDeque<Room>,
    pub(crate) streams: Vec<Stream<P>>,
    pub(crate) ends: EndRoom<P>,
}

impl<P: LockRule> Drop for Rooms<P> {
    fn drop(self) {
        let Self {
            counts: _,
            rooms: _,
            streams: _,
            ends: _,
        } = self;
    }
}

/// The ids of the streams, in the order of their lines.
fn ids_in(alloc: Global, script: &Script) -> Result<Vec<u32>, AllocError>
    ensures { IfOk result (λ ids. ids.items ≡ ids_of_lines script.now.streams) }
{
    script
        .streams
        .as_slice()
        .iter()
        .map(|stream| stream.id)
        .collect(alloc)
}

/// How many requests each stream has, and the memory of each.
fn rooms_in(
    alloc: Global,
    script: &Script,
    ids: &[u32],
) -> Result<(Vec<u32>, VecDeque<Room>), NoMemory>
    requires low { All (λ id. id < 64) ids.now }
    requires few { length script.now.lines < 2 ^ 32 }
    ensures { IfOk result (λ both. (both.0.items ≡ counts_for script.now.lines ids.now) × HaveRooms script.now ids.now both.1.items) }
{
    let links = LineLinks::build(alloc, script)?;
    let Ok(mut counts) = Vec::with_capacity(alloc, ids.len()) else {
        return Err(NoMemory);
    };
    let Ok(mut rooms) = Vec::with_capacity(alloc, ids.len()) else {
        return Err(NoMemory);
    };
    for id in ids {
        let room = Room::build(alloc, script, &links, *id)?;
        counts.push_reserved(room.requests());
        rooms.push_reserved(room);
    }
    Ok((counts, VecDeque::from_vec(rooms)))
}

/// Room for the end, with no pass yet.
fn end_room<P: LockRule>(
    alloc: Global,
    script: &Script,
    ids: Vec<u32>,
) -> Result<EndRoom<P>, AllocError>
    requires { ids.items ≡ ids_of_lines script.now.streams }
    ensures { IfOk result (λ ends. IsEmptyRoom script.now ends) }
{
    let many = ids.len();
    Ok(EndRoom {
        passes: Vec::with_capacity(alloc, many.max(1))?,
        rows: Vec::with_capacity(alloc, many)?,
        ids,
        served: Vec::with_capacity(alloc, script.lines.as_slice().len())?,
    })
}

/// Room for so many coroutines.
fn stream_room<P: LockRule>(alloc: Global, many: usize) -> Result<Vec<Stream<P>>, AllocError>
    ensures { IfOk result (λ streams. (streams.items ≡ []) × (many ≤ vec_capacity streams)) }
{
    Vec::with_capacity(alloc, many)
}

impl<P: LockRule> Rooms<P> {
    /// All of it for a script.
    pub(crate) fn build(alloc: Global, script: &Script) -> Result<Rooms<P>, NoMemory>
        requires { IsBounded script.now }
        ensures { IfOk result (AreRoomsFor script.now) }
    {
        let Ok(ids) = ids_in(alloc, script) else {
            return Err(NoMemory);
        };
        let (counts, rooms) = rooms_in(alloc, script, ids.as_slice())?;
        let Ok(streams) = stream_room(alloc, ids.len()) else {
            return Err(NoMemory);
        };
        let Ok(ends) = end_room(alloc, script, ids) else {
            return Err(NoMemory);
        };
        Ok(Rooms {
            counts,
            rooms,
            streams,
            ends,
        })
    }
}

impl<P: LockRule> Rooms<P> {
    /// The memory of each stream, and room for the coroutines and for the end.
    pub(crate) fn into_parts(self) -> (VecDeque<Room>, Vec<Stream<P>>, EndRoom<P>)
        ensures { result ≡ (self.rooms, self.streams, self.ends) }
    {
        let Self {
            counts: _counts,
            rooms,
            streams,
            ends,
        } = self;
        (rooms, streams, ends)
    }
}
