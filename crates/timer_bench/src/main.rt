//! Rounds of a disarm and an arm among armed timers, to be measured from outside: it prints counts alone. With a word it does
//! one part, or looks at the events that handlers watch; else all parts of timers.
#![tactic(auto)]

mod armed;
mod part;
mod rounds;
mod watched;

use crate::part::{Expiries, Part};
use crate::rounds::rounds;
use std::{env, io};

fn main(rt: HostRuntime) -> io::Result<()> {
    let alloc = rt.alloc();
    let Some(word) = env::args(&rt)?.nth(1) else {
        for size in [64, 512, 4096] {
            rounds(&rt, alloc, Expiries::Rising, size)?;
            rounds(&rt, alloc, Expiries::Falling, size)?;
            rounds(&rt, alloc, Expiries::Random, size)?;
        }
        return Ok(());
    };
    match Part::of(word.as_str()) {
        Some(Part::Nothing) => Ok(()),
        Some(Part::Rounds(expiries, size)) => rounds(&rt, alloc, expiries, size),
        Some(Part::Looks) => watched::looks(&rt, alloc),
        None => println!(rt; "no such part"),
    }
}
