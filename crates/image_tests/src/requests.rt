//! Requests on an image, whole and cut, with and without faults.
ghost use Rattle.std.specs.Prelude.{◌≡◌, ◌<◌, ◌≤◌, ◌^◌, ◌∷◌, ◌++◌, length, slice_index, IfOk, IfSome, Some, None, []};
ghost use Rattle.aio_model.specs.Serving.{length_of, end_of};
ghost use Rattle.img_requests.specs.Journal.{entry_count, entry_next};
ghost use Rattle.img_requests.specs.Pieces.{HasRoom};
ghost use Rattle.img_requests.specs.Progress.{IsServedThrough};
ghost use Rattle.img_requests.specs.Presents.{begun_of};

use crate::disk::{Disk, NEVER};
use aio_model::{Bytes, Reply, Request, Unmade};
use aio_words::Device;
use img_requests::{Enter, Entry, Image, Mark, Piece};
use std::alloc::{AllocError, Global};
use std::test::Fail;

/// So many bytes of this value.
fn bytes_of(alloc: Global, value: u8, n: usize) -> Result<Vec<u8>, AllocError>
    ensures { IfOk result (λ v. length v.items ≡ n) }
{
    vec![in alloc; value; n]
}

/// Serves the pieces of a request that was begun, and counts them.
fn serve_pieces<D: Device>(
    image: &mut Image<D>,
    stream: u32,
    request: &Request,
    buf: &mut [u8],
) -> u32
    requires begun { image.old.present ≡ Some (begun_of stream request.now) }
    requires within { end_of request.now ≤ image.old.size }
    requires inside { IfSome (D.bytes image.old.device) (λ told. end_of request.now ≤ length told) }
    requires room { HasRoom request.now buf.old }
    ensures { IsServedThrough D.bytes stream request.now image.old image.new buf.new }
{
    let mut pieces: u32 = 1;
    loop {
        match image.piece(stream, request, buf) {
            Piece::More => pieces = pieces.saturating_add(1),
            Piece::Whole | Piece::Failed => return pieces,
        }
    }
}

/// How many pieces a request took, none where it was refused, and its place.
#[derive(Clone, Copy, Debug, PartialEq, Eq)]
struct Run {
    pieces: u32,
    place: u32,
}

/// Serves a request.
fn serve<D: Device>(image: &mut Image<D>, stream: u32, request: &Request, buf: &mut [u8]) -> Run
    requires known { stream < length image.old.requests }
    requires free { image.old.present ≡ None }
    requires due { entry_count stream image.old.journal < slice_index image.old.requests stream }
    requires small { length_of request.now < 2 ^ 32 }
    requires room { HasRoom request.now buf.old }
    ensures free { image.new.present ≡ None }
    ensures requests { image.new.requests ≡ image.old.requests }
    ensures journal { (mark : Mark) × (image.new.journal ≡ image.old.journal ++ entry_next stream image.old.journal mark ∷ []) }
{
    match image.enter(stream, request) {
        Enter::Refused(place) => Run { pieces: 0, place },
        Enter::Queued => unreachable!(),
        Enter::Begun => {
            let pieces = serve_pieces(image, stream, request, buf);
            let left = image.leave(stream);
            Run {
                pieces,
                place: left.place,
            }
        }
    }
}

fn entry(stream: u32, index: u32, mark: Mark) -> Entry {
    Entry {
        stream,
        index,
        mark,
    }
}

#[test]
fn write_read_flush(rt: HostRuntime) -> Result<(), Fail> {
    let alloc = rt.alloc();
    let bytes = Bytes::of([0x68, 0x69].to_vec(alloc)?);
    let mut found = [7; 6];
    let disk = Disk::new(bytes_of(alloc, 0, 16)?, NEVER);
    let mut image = Image::build(alloc, disk, 16, &[3])?;
    let write = Request::Write { at: 2, bytes };
    assert_eq!(rt;
        serve(&mut image, 0, &write, &mut []),
        Run {
            pieces: 1,
            place: 0
        }
    );
    let read = Request::Read { at: 0, len: 6 };
    assert_eq!(rt;
        serve(&mut image, 0, &read, &mut found),
        Run {
            pieces: 1,
            place: 1
        }
    );
    assert_eq!(rt;
        serve(&mut image, 0, &Request::Flush, &mut []),
        Run {
            pieces: 1,
            place: 2
        }
    );
    let journal = [
        entry(0, 0, Mark::Put(2)),
        entry(0, 1, Mark::Got(6)),
        entry(0, 2, Mark::Flushed),
    ];
    assert_eq!(rt; image.journal(), journal.as_slice());
    assert_eq!(rt; found, [0, 0, 0x68, 0x69, 0, 0]);
    assert_eq!(rt; image.into_device().calls, 3);
    Ok(())
}

#[test]
fn indices_of_streams_count_apart(rt: HostRuntime) -> Result<(), Fail> {
    let alloc = rt.alloc();
    let disk = Disk::new(bytes_of(alloc, 0, 16)?, NEVER);
    let mut image = Image::build(alloc, disk, 16, &[1, 2])?;
    let past = Request::Zero { at: 16, len: 1 };
    serve(&mut image, 1, &past, &mut []);
    serve(&mut image, 0, &Request::Flush, &mut []);
    serve(&mut image, 1, &Request::Flush, &mut []);
    let journal = [
        entry(1, 0, Mark::Einval),
        entry(0, 0, Mark::Flushed),
        entry(1, 1, Mark::Flushed),
    ];
    assert_eq!(rt; image.journal(), journal.as_slice());
    assert_eq!(rt; image.into_device().calls, 2);
    Ok(())
}

/// What came of the only request of an image.
#[derive(Drop)]
struct Outcome {
    pieces: u32,
    mark: Option<Mark>,
    disk: Disk,
}

/// Serves a request alone, one that isn't a read.
fn alone(alloc: Global, disk: Disk, size: u64, request: &Request) -> Result<Outcome, Unmade<Disk>>
    requires inside { size ≤ length disk.bytes.items }
    requires small { length_of request.now < 2 ^ 32 }
    requires room { HasRoom request.now [] }
{
    let mut image = Image::build(alloc, disk, size, &[1])?;
    let pieces = serve(&mut image, 0, request, &mut []).pieces;
    let mark = image.journal().first().map(|entry| entry.mark);
    let disk = image.into_device();
    Ok(Outcome { pieces, mark, disk })
}

#[test]
fn past_the_end_is_einval(rt: HostRuntime) -> Result<(), Fail> {
    let alloc = rt.alloc();
    for (at, len, mark) in [
        (8, 8, Mark::Zeroed(8)),
        (9, 8, Mark::Einval),
        (16, 0, Mark::Zeroed(0)),
        (17, 0, Mark::Einval),
        (u64::MAX, u32::MAX, Mark::Einval),
    ] {
        let disk = Disk::new(bytes_of(alloc, 0, 20)?, NEVER);
        let outcome = alone(alloc, disk, 16, &Request::Zero { at, len })?;
        assert_eq!(rt; outcome.mark, Some(mark), "{len} bytes at {at}");
    }
    Ok(())
}

#[test]
fn pieces_have_4096_bytes(rt: HostRuntime) -> Result<(), Fail> {
    let alloc = rt.alloc();
    for (len, pieces, calls) in [
        (0, 1, 0),
        (1, 1, 1),
        (4095, 1, 1),
        (4096, 1, 1),
        (4097, 2, 2),
    ] {
        let disk = Disk::new(bytes_of(alloc, 0xff, 8192)?, NEVER);
        let outcome = alone(alloc, disk, 8192, &Request::Zero { at: 0, len })?;
        assert_eq!(rt; outcome.pieces, pieces, "{len} bytes");
        assert_eq!(rt; outcome.disk.calls, calls, "{len} bytes");
    }
    Ok(())
}

#[test]
fn a_failed_piece_is_eio(rt: HostRuntime) -> Result<(), Fail> {
    let alloc = rt.alloc();
    let bytes = Bytes::of(bytes_of(alloc, 0xff, 5000)?);
    let disk = Disk::new(bytes_of(alloc, 0, 5000)?, 1);
    let outcome = alone(alloc, disk, 5000, &Request::Write { at: 0, bytes })?;
    assert_eq!(rt; outcome.mark, Some(Mark::Eio(4096)));
    let whole = outcome.disk.bytes.as_slice();
    assert_eq!(rt; whole.iter().position(|byte| *byte == 0), Some(4096));
    assert_eq!(rt; whole.iter().filter(|byte| **byte == 0xff).count(), 4096);
    Ok(())
}

#[test]
fn a_failed_flush_is_eio_of_nothing(rt: HostRuntime) -> Result<(), Fail> {
    let alloc = rt.alloc();
    let disk = Disk::new(bytes_of(alloc, 0, 1)?, 0);
    let outcome = alone(alloc, disk, 1, &Request::Flush)?;
    assert_eq!(rt; outcome.mark, Some(Mark::Eio(0)));
    assert_eq!(rt; outcome.disk.faults, 1);
    Ok(())
}

#[test]
fn a_mark_and_the_bytes_found_are_a_reply(rt: HostRuntime) -> Result<(), Fail> {
    let found = [1, 2].to_vec(rt.alloc())?;
    let same = [1, 2].to_vec(rt.alloc())?;
    assert_eq!(rt;
        Mark::Got(2).into_reply(Bytes::of(found)),
        Reply::Got(Bytes::of(same))
    );
    Ok(())
}
