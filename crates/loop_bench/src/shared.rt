//! Rounds of one thread on the shared loop.
ghost use Rattle.std.specs.Prelude.{◌≡◌, ◌<◌};

use crate::calls::{Calls, HANDLES, LOTS, MANY_ROUNDS, ONE_ROUNDS};
use aio_bh::Runner;
use aio_model::NoMemory;
use loop_fixture::LoopFixture;
use std::alloc::Global;
use std::io;
use std::sync::Wait;

/// A shared loop of 64 handles and 16 lots.
#[derive(Drop)]
pub(crate) struct Shared {
    fixture: LoopFixture<u64>,
    ghost handles: { fixture.table.sizes.handles ≡ 64 },
}

impl Shared {
    pub(crate) fn build<R: Wait>(rt: &R, alloc: Global) -> io::Result<Shared> {
        match LoopFixture::build(rt, alloc, HANDLES, LOTS, 0) {
            Ok(fixture) => Ok(Shared { fixture }),
            Err(NoMemory) => Err(io::Error::from(io::ErrorKind::OutOfMemory)),
        }
    }

    #[inline(always)]
    pub(crate) fn schedule<R: Wait>(&mut self, rt: &R, bh: u32)
        requires { bh < 64 }
    {
        self.fixture.schedule(rt, bh);
    }

    /// Whether there was room for it.
    fn once<R: Wait>(&mut self, rt: &R, job: u64) -> bool {
        self.fixture.once(rt, job).is_ok()
    }

    #[inline(always)]
    pub(crate) fn poll<R: Wait, C: Runner<u64>>(&mut self, rt: &R, calls: &mut C)
        requires { C.can_run calls.old self.old.fixture.table.sizes }
        ensures { C.can_run calls.new self.new.fixture.table.sizes }
    {
        self.fixture.poll(rt, calls);
    }
}

/// One handle is scheduled and called, over and over.
pub fn one_handle<R: Wait + Print>(rt: &R, alloc: Global) -> io::Result<()> {
    let mut shared = Shared::build(rt, alloc)?;
    let mut calls = Calls { count: 0 };
    for _ in 0..ONE_ROUNDS {
        shared.schedule(rt, 0);
        shared.poll(rt, &mut calls);
    }
    println!(rt; "one handle: {ONE_ROUNDS} rounds, {} calls", calls.count)
}

/// All handles are scheduled, and called by one poll, over and over.
pub fn many_handles<R: Wait + Print>(rt: &R, alloc: Global) -> io::Result<()> {
    let mut shared = Shared::build(rt, alloc)?;
    let mut calls = Calls { count: 0 };
    for _ in 0..MANY_ROUNDS {
        for bh in 0..HANDLES {
            shared.schedule(rt, bh);
        }
        shared.poll(rt, &mut calls);
    }
    println!(rt;
        "{HANDLES} handles: {MANY_ROUNDS} rounds, {} calls",
        calls.count
    )
}

/// A one-shot is placed and called, over and over.
pub fn one_shot<R: Wait + Print>(rt: &R, alloc: Global) -> io::Result<()> {
    let mut shared = Shared::build(rt, alloc)?;
    let mut calls = Calls { count: 0 };
    let mut refused = 0u64;
    for job in 0..ONE_ROUNDS {
        if !shared.once(rt, job) {
            refused = refused.wrapping_add(1);
        }
        shared.poll(rt, &mut calls);
    }
    println!(rt;
        "one-shot: {ONE_ROUNDS} rounds, {refused} refused, {} calls",
        calls.count
    )
}
