//! Tests of bottom halves on the shared loop. They stand apart from `aio_bh`, so that its own proof isn't made once more with
//! them. What is expected was worked out by hand, or is what the plain loop of one thread answers.
#![tactic(auto)]

#[cfg(test)]
mod enqueues;
#[cfg(test)]
mod nested;
#[cfg(test)]
mod one_shots;
#[cfg(test)]
mod placing_callbacks;
#[cfg(test)]
mod plain_loop;
