//! Tests of the table in every order of the steps of a home on its way to sleep and of two seats that enqueue and notify, all on
//! one thread. They stand apart from `aio_core`, so that its own proof isn't made once more with them.
#![tactic(auto)]

mod debt;
mod order;
mod side;
mod sides;
#[cfg(test)]
mod sleeps;

pub use debt::Debt;
pub use order::Order;
pub use side::Side;
pub use sides::Sides;
