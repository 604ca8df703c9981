//! One pass, with no other beside it.
ghost use Rattle.std.specs.Prelude.{◌≡◌};

use crate::bells::Bells;
use crate::number::Number;
use crate::turns::take_turns;
use co_mutex::CoMutex;
use std::alloc::Global;
use std::io;
use std::sync::Wait;

/// How often the pass locks.
const TURNS: u32 = 2_000_000;

pub fn one_pass<R: Wait + Print>(rt: &R, alloc: Global) -> io::Result<()> {
    let Ok((lock, mut passes)) = CoMutex::<Number>::build(alloc, 0, 1) else {
        return Err(io::Error::from(io::ErrorKind::OutOfMemory));
    };
    let Some(pass) = passes.pop() else {
        unreachable!()
    };
    passes.push_reserved(take_turns(rt, &lock, pass, &Bells::silent(), 0, TURNS));
    println!(rt; "{} turns of one pass", lock.close(passes))
}
