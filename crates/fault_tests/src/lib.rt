//! Runs of the program in which one call of an end fails, each in its turn. What was served is judged by `served_check`.
#![tactic(auto)]

#[cfg(test)]
mod expected;
#[cfg(test)]
mod run;
#[cfg(test)]
mod text;
#[cfg(test)]
mod turns;
