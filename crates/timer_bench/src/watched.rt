//! Looks at the events that have a handler.
use crate::rounds::shuffled;
use aio_handlers::Handlers;
use std::alloc::Global;
use std::io;

/// How many looks there are.
const LOOKS: u32 = 4_000_000;

/// A handler for each event from this one on.
fn handlers_from(alloc: Global, first: u32) -> io::Result<Handlers> {
    let Ok(mut handlers) = Handlers::build(alloc, 64) else {
        return Err(io::Error::from(io::ErrorKind::OutOfMemory));
    };
    for event in first..64 {
        if handlers.add(event, 0).is_err() {
            return Err(io::Error::from(io::ErrorKind::Other));
        }
    }
    Ok(handlers)
}

/// One set of handlers after another is asked which events it watches.
pub fn looks<R: Print>(rt: &R, alloc: Global) -> io::Result<()> {
    let sets = [handlers_from(alloc, 0)?, handlers_from(alloc, 32)?];
    let mut random = 1;
    let mut sum = 0u64;
    for _ in 0..LOOKS {
        random = shuffled(random);
        let set = (random / 65536 % 2) as usize;
        sum = sum.wrapping_add(sets[set].watch());
    }
    println!(rt; "watched events: {LOOKS} rounds, {sum} in sum")
}
