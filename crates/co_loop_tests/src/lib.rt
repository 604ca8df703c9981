//! Tests of one loop with coroutines, and of two on one thread, by the public calls of `co_loop`. They stand apart from it, so that its
//! own proof isn't made once more with them.
#![tactic(auto)]

#[cfg(test)]
mod carried;
#[cfg(test)]
mod opened;
#[cfg(test)]
mod players;
#[cfg(test)]
mod runs;
