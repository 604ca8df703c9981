//! Tests of the reader of scripts and of the printer of replies. They stand apart from `aio_script`, so that its own
//! proof isn't made once more with them. What is expected was worked out by hand.
#![tactic(auto)]

#[cfg(test)]
mod loop_printing;
#[cfg(test)]
mod loop_reading;
#[cfg(test)]
mod printing;
#[cfg(test)]
mod reading;
#[cfg(test)]
mod refused;
