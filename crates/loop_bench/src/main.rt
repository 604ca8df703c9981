//! Rounds of bottom halves and of ways to sleep, to be measured from outside: it prints counts alone. With a word it does one
//! part, else four of the shared loop.
#![tactic(auto)]

mod calls;
mod nested;
mod parked;
mod part;
mod placings;
mod plain;
mod shared;
mod sleeps;
mod threads;

use crate::part::Part;
use std::{env, io};

fn main(rt: HostRuntime) -> io::Result<()> {
    let alloc = rt.alloc();
    let Some(word) = env::args(&rt)?.nth(1) else {
        shared::one_handle(&rt, alloc)?;
        shared::many_handles(&rt, alloc)?;
        shared::one_shot(&rt, alloc)?;
        threads::two_threads(&rt, alloc)?;
        return Ok(());
    };
    match Part::of(word.as_str()) {
        Some(Part::Nothing) => Ok(()),
        Some(Part::OneHandle) => shared::one_handle(&rt, alloc),
        Some(Part::OneShot) => shared::one_shot(&rt, alloc),
        Some(Part::ManyHandles) => shared::many_handles(&rt, alloc),
        Some(Part::TwoThreads) => threads::two_threads_and_misses(&rt, alloc),
        Some(Part::Nested) => nested::one_nest(&rt, alloc),
        Some(Part::Placings) => placings::two_threads(&rt, alloc),
        Some(Part::PlainOne) => plain::one_handle(&rt, alloc),
        Some(Part::PlainMany) => plain::many_handles(&rt, alloc),
        Some(Part::Commits) => sleeps::over_an_empty_list(&rt, alloc),
        Some(Part::IdleCommits) => sleeps::over_idle_ones(&rt, alloc),
        Some(Part::Accepts) => sleeps::accepts(&rt, alloc),
        Some(Part::HomesInTurn) => parked::wake_each_other(&rt, alloc),
        Some(Part::CondvarInTurn) => parked::wake_by_condvar(&rt),
        Some(Part::Rings) => parked::ring_at_random(&rt, alloc),
        None => println!(rt; "no such part"),
    }
}
