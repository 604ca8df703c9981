//! Turns of a loop, to be measured from outside: it prints counts alone. With a word it does one part, else both.
#![tactic(auto)]

mod calls;
mod measured;
mod part;
mod rounds;

use crate::part::Part;
use crate::rounds::{busy_turns, idle_turns};
use std::{env, io};

fn main(rt: HostRuntime) -> io::Result<()> {
    let alloc = rt.alloc();
    let Some(word) = env::args(&rt)?.nth(1) else {
        idle_turns(&rt, alloc)?;
        return busy_turns(&rt, alloc);
    };
    match Part::of(word.as_str()) {
        Some(Part::Nothing) => Ok(()),
        Some(Part::Idle) => idle_turns(&rt, alloc),
        Some(Part::Busy) => busy_turns(&rt, alloc),
        None => println!(rt; "no such part"),
    }
}
