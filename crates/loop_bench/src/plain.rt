//! The same rounds on the plain loop of one thread.
ghost use Rattle.std.specs.Prelude.{◌≡◌, ◌<◌};

use crate::calls::{HANDLES, MANY_ROUNDS, ONE_ROUNDS};
use aio_model::{NoMemory, OneLoop};
use std::alloc::Global;
use std::io;

/// A plain loop of 64 handles.
#[derive(Drop)]
struct Plain {
    one: OneLoop,
    ghost handles: { one.sizes.handles ≡ 64 },
}

impl Plain {
    fn build(alloc: Global) -> io::Result<Plain> {
        match OneLoop::build(alloc, HANDLES, 0, 0) {
            Ok(one) => Ok(Plain { one }),
            Err(NoMemory) => Err(io::Error::from(io::ErrorKind::OutOfMemory)),
        }
    }

    fn schedule(&mut self, bh: u32)
        requires { bh < 64 }
    {
        self.one.schedule(bh);
    }

    fn take(&mut self) {
        self.one.take();
    }

    /// Whether the next that was out is called. None where none was.
    fn calls_next(&mut self) -> Option<bool> {
        let (_, was) = self.one.dequeue()?;
        Some(was.scheduled && !was.deleted)
    }

    fn poll(&mut self, calls: &mut u64) {
        self.take();
        for _ in 0..u64::MAX {
            match self.calls_next() {
                Some(true) => *calls = calls.wrapping_add(1),
                Some(false) => {}
                None => break,
            }
        }
    }
}

pub fn one_handle<R: Print>(rt: &R, alloc: Global) -> io::Result<()> {
    let mut plain = Plain::build(alloc)?;
    let mut calls = 0;
    for _ in 0..ONE_ROUNDS {
        plain.schedule(0);
        plain.poll(&mut calls);
    }
    println!(rt; "one handle of the plain loop: {ONE_ROUNDS} rounds, {calls} calls")
}

pub fn many_handles<R: Print>(rt: &R, alloc: Global) -> io::Result<()> {
    let mut plain = Plain::build(alloc)?;
    let mut calls = 0;
    for _ in 0..MANY_ROUNDS {
        for bh in 0..HANDLES {
            plain.schedule(bh);
        }
        plain.poll(&mut calls);
    }
    println!(rt; "{HANDLES} handles of the plain loop: {MANY_ROUNDS} rounds, {calls} calls")
}
