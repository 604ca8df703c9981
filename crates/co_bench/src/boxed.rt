//! State machines in boxes, by hand.
use crate::countdown::Countdown;
use crate::order::scattered;
use std::alloc::{AllocError, Global};

pub fn empty(alloc: Global, size: u32) -> Result<Vec<Option<Box<Countdown>>>, AllocError> {
    let mut boxes = Vec::with_capacity(alloc, size as usize)?;
    for _ in 0..size {
        boxes.push(None)?;
    }
    Ok(boxes)
}

/// Makes one in each place. How many were made.
pub fn fill(
    alloc: Global,
    boxes: &mut Vec<Option<Box<Countdown>>>,
    size: u32,
    left: u32,
) -> Result<u64, AllocError> {
    let mut made: u64 = 0;
    for call in 0..size {
        let place = scattered(call, size) as usize;
        if place < boxes.len() {
            boxes[place] = Some(Box::new(alloc, Countdown { left })?);
            made = made.wrapping_add(1);
        }
    }
    Ok(made)
}

/// One step of a machine. Whether it is done.
fn step(machine: &mut Option<Box<Countdown>>) -> bool {
    match machine {
        Some(machine) => machine.step(),
        None => false,
    }
}

/// Steps each, and lets those go that are done. How many were done.
pub fn step_all(boxes: &mut Vec<Option<Box<Countdown>>>, size: u32) -> u64 {
    let mut done: u64 = 0;
    for call in 0..size {
        let place = scattered(call, size) as usize;
        if place < boxes.len() && step(&mut boxes[place]) {
            boxes[place] = None;
            done = done.wrapping_add(1);
        }
    }
    done
}
