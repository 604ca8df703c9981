//! Coroutines: why one is scheduled, and the laws of their histories.

mod causes;
mod laws;

pub use causes::Cause;
pub use laws::{
    an_enter_between_two_schedules, an_older_part_of_a_legal_one_is_legal,
    the_nth_entered_is_the_nth_pushed,
};
