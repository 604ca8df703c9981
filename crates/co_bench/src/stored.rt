//! Coroutines in a store.
use crate::countdown::Countdown;
use crate::order::{number_of, scattered};
use co_state::{CoStore, Cx, Entered};
use std::alloc::Global;
use std::io;

/// An empty store with room for so many.
pub fn empty(alloc: Global, room: u32) -> io::Result<CoStore<Countdown>> {
    match CoStore::build(alloc, room) {
        Ok(store) => Ok(store),
        Err(_) => Err(io::Error::from(io::ErrorKind::OutOfMemory)),
    }
}

/// Puts as many as there is room for. How many were put.
pub fn fill(store: &mut CoStore<Countdown>, size: u32, left: u32) -> u64 {
    let mut put: u64 = 0;
    for call in 0..size {
        if store
            .put(number_of(scattered(call, size)), Countdown { left })
            .is_ok()
        {
            put = put.wrapping_add(1);
        }
    }
    put
}

/// Enters each, from a call on. How many were done.
pub fn enter_all(store: &mut CoStore<Countdown>, size: u32) -> u64 {
    let mut done: u64 = 0;
    for call in 0..size {
        let number = number_of(scattered(call, size));
        if let Entered::Done(_) = store.enter(number, &(), &mut Cx::fresh()) {
            done = done.wrapping_add(1);
        }
    }
    done
}
