//! Tests of loops in threads: they stand apart from `loop_threads`, so that its own proof isn't made once more with them.
#![tactic(auto)]

#[cfg(test)]
mod runs;
#[cfg(test)]
mod walkers;
