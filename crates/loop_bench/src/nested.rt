//! Rounds of one handle whose callback nests once.
use crate::calls::ONE_ROUNDS;
use crate::shared::Shared;
use aio_bh::{Call, Runner, Turn};
use aio_core::{LoopTable, Seat};
use std::alloc::Global;
use std::io;
use std::sync::Wait;

/// How often callbacks were entered. Each asks for a nested poll at its first entry.
#[derive(Drop)]
struct Nests {
    entries: u64,
}

impl Runner<u64> for Nests {
    ghost use Rattle.std.specs.Prelude.{◌≡◌, true};

    ghost can_run = { λ _ _. true ≡ true };

    ghost does = { λ _ _ _. true ≡ true };

    fn run(
        &mut self,
        _table: &LoopTable<u64>,
        _seat: &mut Seat<u64>,
        call: &mut Call<u64>,
    ) -> Turn {
        self.entries = self.entries.wrapping_add(1);
        if call.first { Turn::Nest } else { Turn::Done }
    }
}

/// One handle is scheduled and called, and its callback nests a poll and goes on, over and over.
pub fn one_nest<R: Wait + Print>(rt: &R, alloc: Global) -> io::Result<()> {
    let mut shared = Shared::build(rt, alloc)?;
    let mut nests = Nests { entries: 0 };
    for _ in 0..ONE_ROUNDS {
        shared.schedule(rt, 0);
        shared.poll(rt, &mut nests);
    }
    println!(rt; "nested: {ONE_ROUNDS} rounds, {} calls", nests.entries)
}
