//! What a served request does to the bytes.
ghost use Rattle.std.specs.Prelude.{◌≡◌, ◌+◌, ◌≤◌, length, replicate};
ghost use Rattle.aio_model.specs.Serving.{bytes_after, put_at, MayAnswer};
ghost use Rattle.aio_model.specs.declared.serving.requests.Request.TheVariants.{Write, Zero};

use aio_model::{Bytes, Reply, Request};

/// Does to the bytes what the request does that got this reply.
pub(crate) fn apply(size: u64, bytes: &mut [u8], request: &Request, reply: &Reply)
    requires inside { size ≤ length bytes.old }
    requires answers { MayAnswer size request.now reply.now }
    ensures { bytes.new ≡ bytes_after request.now reply.now bytes.old }
{
    match request {
        Request::Read { .. } => {}
        Request::Write { at, bytes: piece } => write(size, bytes, *at, piece, reply),
        Request::Zero { at, len } => zero(size, bytes, *at, *len, reply),
        Request::Flush => {}
    }
}

fn write(size: u64, bytes: &mut [u8], at: u64, piece: &Bytes, reply: &Reply)
    requires inside { size ≤ length bytes.old }
    requires answers { MayAnswer size (Write at piece.now) reply.now }
    ensures { bytes.new ≡ bytes_after (Write at piece.now) reply.now bytes.old }
{
    let piece = piece.as_slice();
    match reply {
        Reply::Put(_) => put(bytes, at as usize, piece),
        Reply::Eio(k) => put(bytes, at as usize, &piece[..*k as usize]),
        Reply::Got(_) => {}
        Reply::Zeroed(_) => {}
        Reply::Flushed => {}
        Reply::Einval => {}
    }
}

fn zero(size: u64, bytes: &mut [u8], at: u64, len: u32, reply: &Reply)
    requires inside { size ≤ length bytes.old }
    requires answers { MayAnswer size (Zero at len) reply.now }
    ensures { bytes.new ≡ bytes_after (Zero at len) reply.now bytes.old }
{
    match reply {
        Reply::Zeroed(_) => clear(bytes, at as usize, len as usize),
        Reply::Eio(k) => clear(bytes, at as usize, *k as usize),
        Reply::Put(_) => {}
        Reply::Got(_) => {}
        Reply::Flushed => {}
        Reply::Einval => {}
    }
}

/// Puts the piece at this place.
fn put(bytes: &mut [u8], at: usize, piece: &[u8])
    requires { at + length piece.now ≤ length bytes.old }
    ensures { bytes.new ≡ put_at at piece.now bytes.old }
{
    bytes[at..at + piece.len()].copy_from_slice(piece);
}

/// Puts so many zeros at this place.
fn clear(bytes: &mut [u8], at: usize, len: usize)
    requires { at + len ≤ length bytes.old }
    ensures { bytes.new ≡ put_at at (replicate len 0) bytes.old }
{
    bytes[at..at + len].fill(0);
}
