//! Lists of indices. A list lies in one vector, each index in it at most once, and each call takes the same time
//! however long the list is.
#![tactic(auto)]

mod links;

pub use links::Links;
