//! Tests of whole runs over objects in memory. They stand apart from `aio_cli`, so that its own proof isn't made once
//! more with them. What is expected was worked out by hand.
#![tactic(auto)]

#[cfg(test)]
mod cuts;
#[cfg(test)]
mod faults;
#[cfg(test)]
mod generated;
#[cfg(test)]
mod loop_runs;
#[cfg(test)]
mod pieces;
#[cfg(test)]
mod run;
#[cfg(test)]
mod runs;
#[cfg(test)]
mod streams;
