//! The laws of histories of coroutines. Each holds of every history, and so stands on a function that does nothing.
ghost use Rattle.aio_model.specs.Coroutines.Laws.{IsInOrder, IsEnteredBetween, IsLegalCutAnywhere};

/// Coroutines are entered in the order in which they were pushed.
pub fn the_nth_entered_is_the_nth_pushed()
    ensures { IsInOrder }
{}

/// A coroutine isn't scheduled again before it was entered.
pub fn an_enter_between_two_schedules()
    ensures { IsEnteredBetween }
{}

pub fn an_older_part_of_a_legal_one_is_legal()
    ensures { IsLegalCutAnywhere }
{}
