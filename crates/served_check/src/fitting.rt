//! Whether a reply is one that a request may get on these bytes.
ghost use Rattle.std.specs.Prelude.{◌≡◌, ◌↔◌, ◌+◌, ◌%◌, ◌<◌, ◌≤◌, IsTrue, Some, length, take, drop};
ghost use Rattle.aio_model.specs.Serving.{end_of, length_of, place_of, FindsBytes, Fits, IsCutShort, IsGood};
ghost use Rattle.aio_model.specs.declared.serving.replies.Reply.TheVariants.{Flushed, Got, Put, Zeroed};

use aio_model::{Reply, Request};

/// Whether the reply is one that the request may get on an image of this size and these bytes.
pub(crate) fn fits(size: u64, bytes: &[u8], request: &Request, reply: &Reply) -> bool
    requires inside { size ≤ length bytes.now }
    ensures { IsTrue result ↔ Fits size (Some bytes.now) request.now reply.now }
{
    let inside = end_of(request) <= size as u128;
    match reply {
        Reply::Put(n) => inside && is_put(request, *n),
        Reply::Got(found) => inside && is_got(bytes, request, found.as_slice()),
        Reply::Zeroed(n) => inside && is_zeroed(request, *n),
        Reply::Flushed => inside && is_flushed(request),
        Reply::Eio(k) => inside && is_cut_short(request, *k),
        Reply::Einval => !inside,
    }
}

fn place_of(request: &Request) -> u64
    ensures { result ≡ place_of request.now }
{
    match request {
        Request::Read { at, .. } => *at,
        Request::Write { at, .. } => *at,
        Request::Zero { at, .. } => *at,
        Request::Flush => 0,
    }
}

fn length_of(request: &Request) -> u64
    ensures { result ≡ length_of request.now }
{
    match request {
        Request::Read { len, .. } => *len as u64,
        Request::Write { bytes, .. } => bytes.len() as u64,
        Request::Zero { len, .. } => *len as u64,
        Request::Flush => 0,
    }
}

fn end_of(request: &Request) -> u128
    ensures { result ≡ end_of request.now }
{
    place_of(request) as u128 + length_of(request) as u128
}

fn is_put(request: &Request, n: u32) -> bool
    ensures { IsTrue result ↔ IsGood request.now (Put n) }
{
    match request {
        Request::Read { .. } => false,
        Request::Write { bytes, .. } => n as usize == bytes.len(),
        Request::Zero { .. } => false,
        Request::Flush => false,
    }
}

fn is_got(bytes: &[u8], request: &Request, found: &[u8]) -> bool
    requires inside { end_of request.now ≤ length bytes.now }
    ensures { IsTrue result ↔ (IsGood request.now (Got found.now) × FindsBytes bytes.now request.now (Got found.now)) }
{
    match request {
        Request::Read { at, len } => is_found(bytes, *at as usize, *len as usize, found),
        Request::Write { .. } => false,
        Request::Zero { .. } => false,
        Request::Flush => false,
    }
}

fn is_found(bytes: &[u8], at: usize, len: usize, found: &[u8]) -> bool
    requires inside { at + len ≤ length bytes.now }
    ensures { IsTrue result ↔ ((length found.now ≡ len) × (found.now ≡ take len (drop at bytes.now))) }
{
    found == &bytes[at..at + len]
}

fn is_zeroed(request: &Request, n: u32) -> bool
    ensures { IsTrue result ↔ IsGood request.now (Zeroed n) }
{
    match request {
        Request::Read { .. } => false,
        Request::Write { .. } => false,
        Request::Zero { len, .. } => n == *len,
        Request::Flush => false,
    }
}

fn is_flushed(request: &Request) -> bool
    ensures { IsTrue result ↔ IsGood request.now Flushed }
{
    match request {
        Request::Read { .. } => false,
        Request::Write { .. } => false,
        Request::Zero { .. } => false,
        Request::Flush => true,
    }
}

fn is_cut_short(request: &Request, k: u32) -> bool
    ensures { IsTrue result ↔ IsCutShort request.now k }
{
    match request {
        Request::Read { len, .. } => is_front(k, *len as usize),
        Request::Write { bytes, .. } => is_front(k, bytes.len()),
        Request::Zero { len, .. } => is_front(k, *len as usize),
        Request::Flush => k == 0,
    }
}

/// Whether so many bytes are whole pieces of 4,096, and fewer than all.
fn is_front(k: u32, len: usize) -> bool
    ensures { IsTrue result ↔ ((k % 4096 ≡ 0) × (k < len)) }
{
    k % 4_096 == 0 && (k as usize) < len
}
