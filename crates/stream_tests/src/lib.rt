//! Tests of the coroutine of a stream, by the public calls of `img_streams` alone. They stand apart from it, so that its
//! own proof isn't made once more with them. What is expected was worked out by hand.
#![tactic(auto)]

#[cfg(test)]
mod alone;
#[cfg(test)]
mod rows;
#[cfg(test)]
mod stage;
