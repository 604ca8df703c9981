//! Puts and enters of coroutines in a store, and beside them state machines in boxes, to be measured from outside: it
//! prints counts alone. With three words it does one part, else all of them.
#![tactic(auto)]

mod boxed;
mod calls;
mod countdown;
mod order;
mod part;
mod stored;

use crate::calls::calls;
use crate::part::{Kind, Part, Whose};
use std::{env, io};

fn main(rt: HostRuntime) -> io::Result<()> {
    let alloc = rt.alloc();
    let words: Vec<String> = env::args(&rt)?.skip(1).collect(alloc)?;
    let [whose, kind, size] = words.as_slice() else {
        for size in [64, 512, 4096] {
            for whose in [Whose::Store, Whose::Boxes] {
                calls(&rt, alloc, whose, Kind::Fill, size)?;
                calls(&rt, alloc, whose, Kind::Drain, size)?;
                calls(&rt, alloc, whose, Kind::Yield, size)?;
            }
        }
        return Ok(());
    };
    match Part::of(whose.as_str(), kind.as_str(), size.as_str()) {
        Some(Part::Nothing) => Ok(()),
        Some(Part::Calls(whose, kind, size)) => calls(&rt, alloc, whose, kind, size),
        None => println!(rt; "no such part"),
    }
}
