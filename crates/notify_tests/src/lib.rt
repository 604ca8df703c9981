//! Tests of how a loop sleeps, wakes and ends. They stand apart from `aio_notify`, so that its own proof isn't made once more with
//! them, and over `aio_bh`, whose schedules and polls they use.
#![tactic(auto)]

#[cfg(test)]
mod parked;
#[cfg(test)]
mod settles;
#[cfg(test)]
mod waits;
