//! The same requests one after another, without coroutines, lock or queue: what serving by coroutines is measured against. The image is
//! that of one request at a time, and takes all requests as those of its first stream.
ghost use Rattle.std.specs.Prelude.{◌≡◌, ◌+◌, ◌<◌, ◌≤◌, ◌^◌, IsTrue, [], ◌∷◌, List, ℕ, length, None, IfOk};
ghost use Rattle.aio_model.specs.Serving.{length_of};
ghost use Rattle.img_requests.specs.Journal.{entry_count};
ghost use Rattle.img_requests.specs.Pieces.{HasRoom};
ghost use Rattle.img_requests.specs.Progress.{IsServedThrough, UnderWay};

use crate::serving::device_for;
use aio_model::{Bytes, Placed, Request, Script, Step, What};
use aio_words::Device;
use img_requests::{Enter, Image, Piece};
use std::alloc::Global;
use std::io::{self, ErrorKind};

/// The greatest number of lines, and of requests on the image.
const LIMIT: u32 = 4096;

/// Serves the pieces of the request that has begun, until it has ended.
fn serve_pieces<D: Device>(image: &mut Image<D>, request: &Request, buffer: &mut [u8])
    requires under_way { UnderWay D.bytes 0 request.now image.old image.old buffer.old }
    ensures { IsServedThrough D.bytes 0 request.now image.old image.new buffer.new }
{
    loop {
        match image.piece(0, request, buffer) {
            Piece::More => {}
            Piece::Whole => return,
            Piece::Failed => return,
        }
    }
}

/// Serves one request whole.
fn serve_request<D: Device>(
    image: &mut Image<D>,
    stream: u32,
    request: &Request,
    mut buffer: Vec<u8>,
) -> Placed
    requires free { image.old.present ≡ None }
    requires requests { image.old.requests ≡ 4096 ∷ [] }
    requires due { entry_count 0 image.old.journal < 4096 }
    requires small { length_of request.now < 2 ^ 32 }
    requires room { HasRoom request.now buffer.items }
    ensures free { image.new.present ≡ None }
    ensures requests { image.new.requests ≡ 4096 ∷ [] }
    ensures counted { entry_count 0 image.new.journal ≡ entry_count 0 image.old.journal + 1 }
{
    let place = match image.enter(0, request) {
        Enter::Begun => {
            serve_pieces(image, request, buffer.as_mut_slice());
            image.leave(0).place
        }
        Enter::Refused(place) => place,
        Enter::Queued => unreachable!(),
    };
    let entry = image.journal()[place as usize];
    Placed {
        stream,
        index: entry.index,
        reply: entry.mark.into_reply(Bytes::of(buffer)),
    }
}

/// Whether the request has at most as many bytes as a script's may have.
fn is_small(request: &Request) -> bool
    ensures { IsTrue result → length_of request.now < 2 ^ 32 }
{
    match request {
        Request::Read { at: _, len } => *len <= 65_536,
        Request::Write { at: _, bytes } => bytes.len() <= 65_536,
        Request::Zero { at: _, len } => *len <= 65_536,
        Request::Flush => true,
    }
}

/// How many bytes the request reads.
fn bytes_read(request: &Request) -> usize
    ensures { (bytes : List ℕ) → length bytes ≡ result → HasRoom request.now bytes }
{
    match request {
        Request::Read { at: _, len } => *len as usize,
        _ => 0,
    }
}

/// Serves the requests of the lines in their order.
fn serve_lines<D: Device>(
    alloc: Global,
    image: &mut Image<D>,
    lines: &[Step],
    served: &mut Vec<Placed>,
) -> io::Result<()>
    requires few { length lines.now ≤ 4096 }
    requires free { image.old.present ≡ None }
    requires requests { image.old.requests ≡ 4096 ∷ [] }
    requires new { entry_count 0 image.old.journal ≡ 0 }
{
    for line in lines {
        if let What::Ask(request) = &line.what {
            if !is_small(request) {
                return Err(io::Error::from(ErrorKind::InvalidData));
            }
            let buffer = vec![in alloc; 0; bytes_read(request)]?;
            served.push(serve_request(image, line.stream, request, buffer))?;
        }
    }
    Ok(())
}

/// Serves the script's requests one after another, and answers how many replies there are. It takes scripts of at most 4,096 lines.
pub fn count_serially(alloc: Global, script: &Script) -> io::Result<usize> {
    let lines = script.lines.as_slice();
    if lines.len() > LIMIT as usize {
        return Err(io::Error::from(ErrorKind::InvalidData));
    }
    let device = device_for(alloc, script)?;
    let mut served = Vec::with_capacity(alloc, lines.len())?;
    let Ok(mut image) = Image::build(alloc, device, script.image, &[LIMIT]) else {
        return Err(io::Error::from(ErrorKind::OutOfMemory));
    };
    let done = serve_lines(alloc, &mut image, lines, &mut served);
    image.into_device();
    done?;
    Ok(served.len())
}
