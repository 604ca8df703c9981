//! Tests of the table that the threads of a loop share. They stand apart from `aio_core`, so that its own proof isn't made once
//! more with them. What is expected was worked out by hand, or is what the plain loop of one thread answers.
#![tactic(auto)]

#[cfg(test)]
mod calls;
#[cfg(test)]
mod enqueue_orders;
