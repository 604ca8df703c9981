//! Runs of loop scripts on the shared loop. They stand apart from the crates that do them, so that the proofs of those aren't made
//! once more with them. What is expected was worked out by hand, or is what the plain loop of one thread prints.
#![tactic(auto)]

#[cfg(test)]
mod compared;
#[cfg(test)]
mod plain;
#[cfg(test)]
mod runs;
