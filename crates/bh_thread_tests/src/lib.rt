//! Tests of bottom halves on the shared loop with threads of their own. They stand apart from `aio_bh`, so that its own proof isn't
//! made once more with them. What is expected was worked out by hand.
#![tactic(auto)]

#[cfg(test)]
mod placings;
#[cfg(test)]
mod polled_threads;
#[cfg(test)]
mod threads;
