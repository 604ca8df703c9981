//! The laws of loop histories. Each holds of every history, and so stands on a function that does nothing.
ghost use Rattle.aio_model.specs.Loop.Laws.{IsAnnouncedOnce, IsEnqueuedBetween, IsNeverCalledDeleted, IsLegalCutAnywhere};

/// In a legal history an index is pending exactly where it is announced, in the stack or in out, and then it
/// stands once in one of the three.
pub fn pending_is_announced_once()
    ensures { IsAnnouncedOnce }
{}

/// Between two dequeues of an index stands an enqueue of it, and one of a scheduling kind where the second called.
pub fn an_enqueue_between_two_dequeues()
    ensures { IsEnqueuedBetween }
{}

/// After a deletion no dequeue of that life calls.
pub fn a_deleted_one_never_runs()
    ensures { IsNeverCalledDeleted }
{}

pub fn a_legal_history_cut_anywhere_is_legal()
    ensures { IsLegalCutAnywhere }
{}
