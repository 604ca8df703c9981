//! Rounds of a disarm and an arm, each of another timer of a set in which all are armed.
use crate::armed::Armed;
use crate::part::Expiries;
use std::alloc::Global;
use std::io;

/// How many rounds there are.
const ROUNDS: u32 = 400_000;

/// Pseudo-random numbers.
pub fn shuffled(seed: u32) -> u32 {
    seed.wrapping_mul(1664525).wrapping_add(1013904223)
}

/// Which timer a round arms, and when it is to expire.
fn round(expiries: Expiries, round: u32, random: u32) -> (u32, i64) {
    match expiries {
        Expiries::Rising => (round, 1_000_000 + i64::from(round)),
        Expiries::Falling => (round, 1_000_000 - i64::from(round)),
        Expiries::Random => (random / 65536, i64::from(random)),
    }
}

pub fn rounds<R: Print>(rt: &R, alloc: Global, expiries: Expiries, size: u32) -> io::Result<()> {
    if size == 0 {
        return Ok(());
    }
    let mut armed = Armed::build(alloc, size)?;
    let mut random = 1;
    let mut rearmed: u64 = 0;
    for number in 0..ROUNDS {
        random = shuffled(random);
        let (timer, expire) = round(expiries, number, random);
        if armed.rearm(timer % size, expire) {
            rearmed = rearmed.wrapping_add(1);
        }
    }
    let first = armed.first().unwrap_or(0);
    println!(rt;
        "{} among {size}: {ROUNDS} rounds, {rearmed} of armed ones, first {first}",
        expiries.name()
    )
}
