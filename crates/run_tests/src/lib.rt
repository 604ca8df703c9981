//! Tests of `top` that a program on one thread can't pass, and of what a loop does meanwhile.
#![tactic(auto)]

#[cfg(test)]
mod crowd;
#[cfg(test)]
mod home;
#[cfg(test)]
mod lingering;
#[cfg(test)]
mod meeting;
#[cfg(test)]
mod stage;
