//! Serves a script from standard input and prints the replies as `aioloops` does, but by a coroutine for each stream, all of
//! them on this thread, to be measured from outside. With a word it does less, or serves in rounds, or one after another.
#![tactic(auto)]

mod input;
mod part;
mod serially;
mod serving;

use crate::input::script_from;
use crate::part::Part;
use crate::serially::count_serially;
use crate::serving::{count_in_rounds, count_woken, serve_and_print};
use aio_words::{StdSink, StdSource};
use std::io::ErrorKind;
use std::{env, io};

fn main(rt: HostRuntime) -> io::Result<()> {
    let alloc = rt.alloc();
    let part = match env::args(&rt)?.nth(1) {
        Some(word) => Part::of(word.as_str()),
        None => Part::All,
    };
    let Ok(mut source) = StdSource::build(rt.stdin()) else {
        return Err(io::Error::from(ErrorKind::OutOfMemory));
    };
    let script = script_from(alloc, &mut source)?;
    match part {
        Part::Read => println!(rt; "{} lines", script.lines.as_slice().len()),
        Part::Serve => {
            let tally = count_woken(&rt, alloc, &script)?;
            println!(rt; "{} resumes", tally.resumes)
        }
        Part::Rounds => println!(rt; "{} served", count_in_rounds(&rt, alloc, &script)?),
        Part::Serially => println!(rt; "{} served", count_serially(alloc, &script)?),
        Part::All => {
            let Ok(mut sink) = StdSink::output(rt.stdout()) else {
                return Err(io::Error::from(ErrorKind::OutOfMemory));
            };
            serve_and_print(&rt, alloc, &script, &mut sink)
        }
    }
}
