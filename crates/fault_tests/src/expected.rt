//! What a run is to print and to call.
use crate::text::data_of;
use aio_model::{Placed, Reply, Request, Script, Step, What};
use std::alloc::{AllocError, Global};
use std::test::Fail;

/// The text of a script's replies, each at its place.
pub fn printed_text(alloc: Global, script: &Script, served: &[Placed]) -> Result<String, Fail> {
    let mut text = String::new(alloc);
    let mut begun = [0u32; 64];
    for step in script.lines.as_slice() {
        if let What::Ask(request) = &step.what {
            let stream = step.stream as usize % 64;
            let place = place_of(served, step.stream, begun[stream]);
            begun[stream] = begun[stream].wrapping_add(1);
            if let Some(placed) = served.get(place) {
                text.push_str(reply_line(alloc, place, request, placed)?.as_str())?;
            }
        }
    }
    let requests = served.len();
    let errors = served.iter().filter(|placed| is_error(placed)).count();
    text.push_str(format!(in alloc; "end {requests} {errors}\n")?.as_str())?;
    Ok(text)
}

/// Where the reply to this request of the stream stands, or their number.
fn place_of(served: &[Placed], stream: u32, index: u32) -> usize {
    served
        .iter()
        .take_while(|placed| placed.stream != stream || placed.index != index)
        .count()
}

fn reply_line(
    alloc: Global,
    place: usize,
    request: &Request,
    placed: &Placed,
) -> Result<String, AllocError> {
    let stream = placed.stream;
    let verb = verb_of(request);
    let outcome = outcome_of(alloc, &placed.reply)?;
    format!(in alloc; "{place} {stream} {verb} {outcome}\n")
}

fn verb_of(request: &Request) -> &'static str {
    match request {
        Request::Read { .. } => "read",
        Request::Write { .. } => "write",
        Request::Zero { .. } => "zero",
        Request::Flush => "flush",
    }
}

fn outcome_of(alloc: Global, reply: &Reply) -> Result<String, AllocError> {
    match reply {
        Reply::Put(n) => format!(in alloc; "ok {n}"),
        Reply::Got(found) => {
            let data = data_of(alloc, found.as_slice())?;
            format!(in alloc; "ok {data}")
        }
        Reply::Zeroed(n) => format!(in alloc; "ok {n}"),
        Reply::Flushed => String::from_str(alloc, "ok"),
        Reply::Eio(k) => format!(in alloc; "eio {k}"),
        Reply::Einval => String::from_str(alloc, "einval"),
    }
}

fn is_error(placed: &Placed) -> bool {
    matches!(placed.reply, Reply::Eio(_) | Reply::Einval)
}

pub fn is_eio(placed: &Placed) -> bool {
    matches!(placed.reply, Reply::Eio(_))
}

/// How many calls a device has of a run without faults: one for its length, one for each piece of at most 4,096 bytes
/// of a request that fits, and one for each flush.
pub fn device_calls(script: &Script) -> u64 {
    let mut calls = 1u64;
    for step in script.lines.as_slice() {
        calls = calls.saturating_add(step_calls(script.image, step));
    }
    calls
}

fn step_calls(image: u64, step: &Step) -> u64 {
    match &step.what {
        What::Ask(Request::Read { at, len }) => pieces(image, *at, *len as u64),
        What::Ask(Request::Write { at, bytes }) => pieces(image, *at, bytes.len() as u64),
        What::Ask(Request::Zero { at, len }) => pieces(image, *at, *len as u64),
        What::Ask(Request::Flush) => 1,
        What::Delay(_) => 0,
        What::Move(_) => 0,
    }
}

fn pieces(image: u64, at: u64, len: u64) -> u64 {
    match at.checked_add(len) {
        Some(end) if end <= image => len / 4_096 + (len % 4_096).min(1),
        _ => 0,
    }
}
