//! The memory of a stream: the places of its lines, a buffer for each of its requests, and one more.
ghost use Rattle.std.specs.Prelude.{◌≡◌, ◌<◌, ◌≤◌, ◌^◌, ◌∷◌, ◌++◌, [], IfOk, length, map, vec_capacity};
ghost use Rattle.img_requests.specs.Pieces.{HasRoom};
ghost use Rattle.img_streams.specs.Links.{AreLinksOf};
ghost use Rattle.img_streams.specs.Rooms.{AddsFor, AreGathered, IsRoomFor};

use crate::links::LineLinks;
use aio_model::{NoMemory, Request, Script, Step, What};
use std::alloc::{AllocError, Global};
use std::collections::VecDeque;

/// The memory of a stream that has made no call yet: the places of its lines, a buffer for each of its requests, and one more.
#[derive(Drop)]
pub struct Room {
    pub(crate) places: Vec<usize>,
    pub(crate) filled: Vec<Vec<u8>>,
    pub(crate) buffer: Vec<u8>,
    pub(crate) later: VecDeque<Vec<u8>>,
}

/// A buffer of a read's length, or an empty one.
fn buffer_for(alloc: Global, request: &Request) -> Result<Vec<u8>, AllocError>
    ensures { IfOk result (λ buffer. HasRoom request.now buffer.items) }
{
    match request {
        Request::Read { at: _, len } => vec![in alloc; 0; *len as usize],
        Request::Write { at: _, bytes: _ } | Request::Zero { at: _, len: _ } | Request::Flush => {
            Ok(Vec::new(alloc))
        }
    }
}

/// Puts the buffer of a line behind the others, where the line is a request of the stream.
fn add_buffer(
    alloc: Global,
    buffers: &mut VecDeque<Vec<u8>>,
    line: &Step,
    id: u32,
) -> Result<(), AllocError>
    ensures { IfOk result (λ _. AddsFor id line.now (map (λ buffer. buffer.items) buffers.old.items) (map (λ buffer. buffer.items) buffers.new.items)) }
{
    if line.stream != id {
        return Ok(());
    }
    let What::Ask(request) = &line.what else {
        return Ok(());
    };
    let buffer = buffer_for(alloc, request)?;
    buffers.push_back(buffer)?;
    Ok(())
}

/// The places of the stream's lines, and a buffer for each request among them, both in the order of the lines. A read's buffer has
/// the read's length, and any other is empty.
fn places_and_buffers(
    alloc: Global,
    lines: &[Step],
    links: &LineLinks,
    id: u32,
) -> Result<(Vec<usize>, VecDeque<Vec<u8>>), AllocError>
    requires links { AreLinksOf lines.now links.now }
    requires known { id < 64 }
    ensures { IfOk result (λ both. AreGathered lines.now id both.0.items (map (λ buffer. buffer.items) both.1.items)) }
{
    let mut places = Vec::new(alloc);
    let mut buffers = VecDeque::new(alloc);
    let mut at = links.first(id);
    while at < lines.len() {
        places.push(at)?;
        add_buffer(alloc, &mut buffers, &lines[at], id)?;
        at = links.next(at);
    }
    Ok((places, buffers))
}

/// Puts an empty buffer behind the others.
fn add_last(alloc: Global, buffers: &mut VecDeque<Vec<u8>>) -> Result<(), AllocError>
    ensures { IfOk result (λ _. map (λ buffer. buffer.items) buffers.new.items ≡ map (λ buffer. buffer.items) buffers.old.items ++ [] ∷ []) }
{
    buffers.push_back(Vec::new(alloc))?;
    Ok(())
}

fn take_first(buffers: &mut VecDeque<Vec<u8>>) -> Vec<u8>
    requires { 0 < length buffers.old.items }
    ensures { buffers.old.items ≡ result ∷ buffers.new.items }
{
    let Some(buffer) = buffers.pop_front() else {
        unreachable!()
    };
    buffer
}

fn filled_for(alloc: Global, buffers: &VecDeque<Vec<u8>>) -> Result<Vec<Vec<u8>>, AllocError>
    ensures { IfOk result (λ filled. (filled.items ≡ []) × (length buffers.now.items ≤ vec_capacity filled)) }
{
    Vec::with_capacity(alloc, buffers.len())
}

fn room_for(alloc: Global, lines: &[Step], links: &LineLinks, id: u32) -> Result<Room, AllocError>
    requires links { AreLinksOf lines.now links.now }
    requires known { id < 64 }
    ensures { IfOk result (λ room. IsRoomFor lines.now id room) }
{
    let (places, mut later) = places_and_buffers(alloc, lines, links, id)?;
    let filled = filled_for(alloc, &later)?;
    add_last(alloc, &mut later)?;
    let buffer = take_first(&mut later);
    Ok(Room {
        places,
        filled,
        buffer,
        later,
    })
}

impl Room {
    /// The memory of the stream with this id. The links are the script's.
    pub fn build(
        alloc: Global,
        script: &Script,
        links: &LineLinks,
        id: u32,
    ) -> Result<Room, NoMemory>
        requires links { AreLinksOf script.now.lines links.now }
        requires known { id < 64 }
        ensures { IfOk result (λ room. IsRoomFor script.now.lines id room) }
    {
        let Ok(room) = room_for(alloc, script.lines.as_slice(), links, id) else {
            return Err(NoMemory);
        };
        Ok(room)
    }

    /// How many requests the stream has.
    pub fn requests(&self) -> u32
        requires { length self.now.later.items < 2 ^ 32 }
        ensures { result ≡ length self.now.later.items }
    {
        self.later.len() as u32
    }
}
