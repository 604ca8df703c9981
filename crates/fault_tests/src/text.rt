//! A script as a text.
use aio_model::{Request, Script, Step, What};
use std::alloc::{AllocError, Global};
use std::test::Fail;

/// The text of a script.
pub fn text_of(alloc: Global, script: &Script) -> Result<String, Fail> {
    let image = script.image;
    let loops = script.loops;
    let mut text = format!(in alloc; "image {image}\nloops {loops}\n")?;
    for stream in script.streams.as_slice() {
        let id = stream.id;
        let home = stream.home;
        text.push_str(format!(in alloc; "stream {id} {home}\n")?.as_str())?;
    }
    for step in script.lines.as_slice() {
        text.push_str(line_of(alloc, step)?.as_str())?;
    }
    Ok(text)
}

fn line_of(alloc: Global, step: &Step) -> Result<String, AllocError> {
    let stream = step.stream;
    match &step.what {
        What::Ask(request) => request_line(alloc, stream, request),
        What::Delay(ns) => format!(in alloc; "{stream} delay {ns}\n"),
        What::Move(home) => format!(in alloc; "{stream} move {home}\n"),
    }
}

fn request_line(alloc: Global, stream: u32, request: &Request) -> Result<String, AllocError> {
    match request {
        Request::Read { at, len } => format!(in alloc; "{stream} read {at} {len}\n"),
        Request::Write { at, bytes } => {
            let data = data_of(alloc, bytes.as_slice())?;
            format!(in alloc; "{stream} write {at} {data}\n")
        }
        Request::Zero { at, len } => format!(in alloc; "{stream} zero {at} {len}\n"),
        Request::Flush => format!(in alloc; "{stream} flush\n"),
    }
}

/// Bytes in hexadecimal, a dash for none.
pub fn data_of(alloc: Global, bytes: &[u8]) -> Result<String, AllocError> {
    if bytes.is_empty() {
        return String::from_str(alloc, "-");
    }
    hex::encode(alloc, bytes)
}
