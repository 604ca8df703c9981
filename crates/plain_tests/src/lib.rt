//! Tests of what one thread uses alone: the plain loop, lists by index, timers and handlers. They stand apart from these crates,
//! so that the crates' own proofs aren't made once more with them. What is expected was worked out by hand, or is what a slow
//! function that the tests compare with answers.
#![tactic(auto)]

#[cfg(test)]
mod handlers;
#[cfg(test)]
mod links;
#[cfg(test)]
mod one_loop;
#[cfg(test)]
mod slow_lists;
#[cfg(test)]
mod timers;
