//! Locks and unlocks of coroutines, to be measured from outside: it prints counts alone. With a word it does one part, else both.
#![tactic(auto)]

mod bells;
mod four;
mod number;
mod one;
mod part;
mod turns;

use crate::part::Part;
use std::{env, io};

fn main(rt: HostRuntime) -> io::Result<()> {
    let alloc = rt.alloc();
    let Some(word) = env::args(&rt)?.nth(1) else {
        one::one_pass(&rt, alloc)?;
        return four::four_threads(&rt, alloc);
    };
    match Part::of(word.as_str()) {
        Some(Part::Nothing) => Ok(()),
        Some(Part::OnePass) => one::one_pass(&rt, alloc),
        Some(Part::FourThreads) => four::four_threads(&rt, alloc),
        None => println!(rt; "no such part"),
    }
}
