//! A script served by its loops, each on a thread of its own: `prepare` takes all memory and posts each stream to its home,
//! and `run` carries the loops until all streams have ended and each loop is quiet.
//!
//! It has no words of its own. Handle 0 of each loop takes the coroutines that were posted there, and event 0 ends the loop's
//! run.
//!
//! `prepare` runs on the caller's thread, before there is another. It has the row of all numbers, and posts each stream's
//! coroutine by it. `run` hands each loop's part to a thread (`loop_threads`). Lock, script and gate are lent to all threads
//! until they are joined.
//!
//! A stream's coroutine is owned by one at a time: by its slot in the table of its first loop, by the store of the loop on
//! which it is, by its slot in the table of the loop to which it moves, and in the end by the crew of the loop on which it
//! retired. Its pass of the lock goes with it, and the device lies behind the lock.
//!
//! The last stream that retires has event 0 of each loop set. Where the script has no stream, `run` sets it before the
//! threads are started. Once they are joined, `run` puts each coroutine at the place of its stream line, and `stream_ends`
//! makes the replies of them. Where one hadn't come back, or none had asked for the loops' end, it would wait for ever.
#![tactic(auto)]

mod carrying;
mod moving;
mod opening;
mod posting;
mod preparing;
mod returning;
mod running;

pub use moving::moves_in;
pub use preparing::{Prepared, ScriptRun, prepare};
pub use running::{Outcome, RunEnd, run};
