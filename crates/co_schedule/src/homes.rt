//! The right of the home thread to take coroutines and enter them.
ghost use Rattle.std.specs.Prelude.{◌≡◌, None, [], true};
ghost use Rattle.co_schedule.specs.Known.{AtRest, IsHomes};
ghost use Rattle.co_schedule.specs.Calls.{are_within};
ghost use Rattle.co_schedule.specs.States.{CountsOwn};

use crate::plays::Inner;
use co_state::Origin;
use std::marker::Model;

/// The home's seat of a table of coroutines, whose number is 64. Whoever has it is the home thread. Contracts see in it also
/// which coroutines it has taken and not begun.
#[derive(Drop)]
pub struct CoHome<C: Origin> {
    pub(crate) inner: Inner<C>,
    /// How many coroutines were entered with a state.
    pub(crate) states: u64,
}

impl<C: Origin> Model for CoHome<C> {
    ghost use Rattle.std.specs.Prelude.{◌≡◌, None, [], true};
    ghost use Rattle.co_schedule.specs.Known.{AtRest};
    ghost use Rattle.co_schedule.specs.Calls.{SeatState, are_within};
    ghost use Rattle.co_schedule.specs.States.{CountsOwn};

    ghost Value = { SeatState C.Source };

    ghost view = { λ h. record { table = h.inner.table_id; known = h.inner.me.0.known; origin = h.inner.me.0.origin } };

    ghost invariant = { λ h. (h.inner.me.1 ≡ []) × (h.inner.me.0.known.first ≡ 64) × (h.inner.me.0.known.count ≡ 1) × (h.inner.me.0.known.phase ≡ AtRest) × (h.inner.me.0.known.stage.word ≡ 0) × (h.inner.me.0.known.stage.hand ≡ None) × (h.inner.me.0.known.stage.run ≡ h.inner.me.0.known.stage.taken) × (are_within h.inner.me.0.known.coroutines h.inner.me.0.known.stage.taken ≡ true) × CountsOwn h.states h.inner.me.0.known };
}

impl<C: Origin> CoHome<C> {
    pub(crate) fn of(inner: Inner<C>, states: u64) -> CoHome<C>
        requires slots { inner.me.1 ≡ [] }
        requires number { IsHomes inner.me.0.known }
        requires rest { inner.me.0.known.phase ≡ AtRest }
        requires over { (inner.me.0.known.stage.word ≡ 0) × (inner.me.0.known.stage.hand ≡ None) × (inner.me.0.known.stage.run ≡ inner.me.0.known.stage.taken) }
        requires within { are_within inner.me.0.known.coroutines inner.me.0.known.stage.taken ≡ true }
        requires counts { CountsOwn states inner.me.0.known }
        ensures { (result.table ≡ inner.table_id) × (result.known ≡ inner.me.0.known) × (result.origin ≡ inner.me.0.origin) }
    {
        CoHome { inner, states }
    }
}
