//! So many puts, or enters, among coroutines of a number.
use crate::part::{Kind, Whose};
use crate::{boxed, stored};
use std::alloc::Global;
use std::io;

/// How many puts or enters there are of each kind.
const CALLS: u32 = 409_600;

fn rounds_of(size: u32) -> u32 {
    if size == 0 { 0 } else { CALLS / size }
}

/// How many resumes a coroutine has in it.
fn lasting(kind: Kind) -> u32 {
    match kind {
        Kind::Fill | Kind::Drain => 0,
        Kind::Yield => u32::MAX,
    }
}

/// How many coroutines were put, and how many were done.
fn in_store(alloc: Global, kind: Kind, size: u32) -> io::Result<(u64, u64)> {
    let mut put: u64 = 0;
    let mut done: u64 = 0;
    match kind {
        Kind::Yield => {
            let mut store = stored::empty(alloc, size)?;
            put = stored::fill(&mut store, size, lasting(kind));
            for _ in 0..rounds_of(size) {
                done = done.wrapping_add(stored::enter_all(&mut store, size));
            }
        }
        Kind::Fill => {
            for _ in 0..rounds_of(size) {
                let mut store = stored::empty(alloc, size)?;
                put = put.wrapping_add(stored::fill(&mut store, size, lasting(kind)));
            }
        }
        Kind::Drain => {
            for _ in 0..rounds_of(size) {
                let mut store = stored::empty(alloc, size)?;
                put = put.wrapping_add(stored::fill(&mut store, size, lasting(kind)));
                done = done.wrapping_add(stored::enter_all(&mut store, size));
            }
        }
    }
    Ok((put, done))
}

/// The same with state machines in boxes.
fn in_boxes(alloc: Global, kind: Kind, size: u32) -> io::Result<(u64, u64)> {
    let mut put: u64 = 0;
    let mut done: u64 = 0;
    match kind {
        Kind::Yield => {
            let mut boxes = boxed::empty(alloc, size)?;
            put = boxed::fill(alloc, &mut boxes, size, lasting(kind))?;
            for _ in 0..rounds_of(size) {
                done = done.wrapping_add(boxed::step_all(&mut boxes, size));
            }
        }
        Kind::Fill => {
            for _ in 0..rounds_of(size) {
                let mut boxes = boxed::empty(alloc, size)?;
                put = put.wrapping_add(boxed::fill(alloc, &mut boxes, size, lasting(kind))?);
            }
        }
        Kind::Drain => {
            for _ in 0..rounds_of(size) {
                let mut boxes = boxed::empty(alloc, size)?;
                put = put.wrapping_add(boxed::fill(alloc, &mut boxes, size, lasting(kind))?);
                done = done.wrapping_add(boxed::step_all(&mut boxes, size));
            }
        }
    }
    Ok((put, done))
}

pub fn calls<R: Print>(
    rt: &R,
    alloc: Global,
    whose: Whose,
    kind: Kind,
    size: u32,
) -> io::Result<()> {
    let (put, done) = match whose {
        Whose::Store => in_store(alloc, kind, size)?,
        Whose::Boxes => in_boxes(alloc, kind, size)?,
    };
    println!(rt;
        "{} {} among {size}: {put} put, {done} done",
        whose.name(),
        kind.name()
    )
}
