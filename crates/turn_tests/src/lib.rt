//! Tests of a turn of a loop. They stand apart from `aio_loop`, so that its own proof isn't made once more with them.
#![tactic(auto)]

#[cfg(test)]
mod notes;
#[cfg(test)]
mod parts;
#[cfg(test)]
mod responder;
#[cfg(test)]
mod responses;
#[cfg(test)]
mod rig;
#[cfg(test)]
mod turns;
#[cfg(test)]
mod woken;
