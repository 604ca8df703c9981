//! Loops with coroutines on threads of their own, as iothreads of QEMU carry an AioContext each, but with all that they own
//! given back at the end: `reserve` takes all memory, `prepare` deals the seats, `run` starts and joins the threads, and
//! `end` settles each loop.
//!
//! The tables of the loops are lent to all threads. What is one loop's alone is its part: both homes, handlers and timers,
//! the home's pass of the pool, a row of two numbers, and its work. Who owns the part is the loop's home thread, and gives it
//! turns.
//!
//! `prepare` cuts the row of the numbers 0 to 63 into 32 rows of two. Each part gets one, and the caller keeps the others.
//! `run` starts a thread for each part. The thread gives turns until the run of its loop has ended: event 0 was found set,
//! the last turn found nothing to do, and no coroutine is kept for another loop. Then the part goes back to the caller.
//!
//! A part for which no thread could be started stays the caller's, who gives it turns that don't block. One word for each
//! loop, `handed_back`, tells such a closure to give its part back as it is. The caller alone sets it, before it calls the
//! closure itself.
//!
//! Once all threads are joined, the caller gives each loop turns until none finds anything to do in one round, and joins the
//! rows. `end` owns each loop whole: its home commits to sleep and takes in all numbers, and the whole histories come out.
#![tactic(auto)]

mod carrying;
mod dealing;
mod ending;
mod hands;
mod members;
mod parts;
mod preparing;
mod reserving;
mod running;
mod threads;

pub use ending::LoopRun;
pub use hands::{Hand, new_hands};
pub use members::{Joined, Member};
pub use parts::Part;
pub use preparing::{Prepared, prepare};
pub use reserving::{Reserved, reserve};
