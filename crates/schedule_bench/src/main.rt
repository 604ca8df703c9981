//! Schedules and begins of coroutines, to be measured from outside: it prints counts alone. With a word it does one part, else both.
#![tactic(auto)]

mod begun;
mod other;
mod part;
mod same;

use crate::part::Part;
use std::{env, io};

fn main(rt: HostRuntime) -> io::Result<()> {
    let alloc = rt.alloc();
    let Some(word) = env::args(&rt)?.nth(1) else {
        same::same_thread(&rt, alloc)?;
        return other::other_thread(&rt, alloc);
    };
    match Part::of(word.as_str()) {
        Some(Part::Nothing) => Ok(()),
        Some(Part::SameThread) => same::same_thread(&rt, alloc),
        Some(Part::OtherThread) => other::other_thread(&rt, alloc),
        None => println!(rt; "no such part"),
    }
}
