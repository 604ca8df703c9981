//! Tests of serving a script by coroutines, from its text to its printed replies, by the public calls of `stream_ends`,
//! `stream_carrier` and `reply_printing`. What is expected was worked out by hand, or is judged by `served_check`.
#![tactic(auto)]

#[cfg(test)]
mod blocks;
#[cfg(test)]
mod by_hand;
#[cfg(test)]
mod faults;
#[cfg(test)]
mod orders;
#[cfg(test)]
mod printing;
#[cfg(test)]
mod rows;
#[cfg(test)]
mod stage;
#[cfg(test)]
mod wakes;
