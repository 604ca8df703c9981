//! Tests of coroutines that are scheduled into a home, by the public calls of `co_schedule` alone.
#![tactic(auto)]

#[cfg(test)]
mod log;
#[cfg(test)]
mod rows;
#[cfg(test)]
mod threads;
