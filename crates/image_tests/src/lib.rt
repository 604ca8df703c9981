//! Tests of the outside and of the image over it. They stand apart from these crates, so that the crates' own proofs aren't made
//! once more with them. What is expected was worked out by hand.
#![tactic(auto)]

#[cfg(test)]
mod disk;
#[cfg(test)]
mod outside;
#[cfg(test)]
mod requests;
