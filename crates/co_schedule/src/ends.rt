//! What a table comes to in the end.
use crate::built::CoBuilt;
use crate::plays::Inner;
use co_state::Origin;
use std::marker::Model;

/// The end of a table of coroutines. Only `close` makes one. Contracts see in it the whole history of the table, from its build on.
#[derive(Drop)]
pub struct CoEnd<C: Origin> {
    inner: Inner<C>,
    states: u64,
}

impl<C: Origin> Model for CoEnd<C> {
    ghost use Rattle.std.specs.Prelude.{◌≡◌};
    ghost use Rattle.co_schedule.specs.Calls.{EndState};
    ghost use Rattle.co_schedule.specs.States.{states_given};
    ghost use Rattle.aio_model.specs.Counts.{counted};

    ghost Value = { EndState };

    ghost view = { λ e. record { table = e.inner.table_id; coroutines = e.inner.me.0.known.coroutines; history = e.inner.me.0.known.seen } };

    ghost invariant = { λ e. e.states ≡ counted (states_given e.inner.me.0.known.seen) };
}

impl<C: Origin> CoEnd<C> {
    ghost use Rattle.std.specs.Prelude.{◌≡◌};
    ghost use Rattle.co_schedule.specs.States.{states_given};
    ghost use Rattle.aio_model.specs.Counts.{counted};

    pub(crate) fn of(inner: Inner<C>, states: u64) -> CoEnd<C>
        requires { states ≡ counted (states_given inner.me.0.known.seen) }
        ensures { (result.table ≡ inner.table_id) × (result.coroutines ≡ inner.me.0.known.coroutines) × (result.history ≡ inner.me.0.known.seen) }
    {
        CoEnd { inner, states }
    }

    /// How many schedules gave a state, in the whole history. It stays at the greatest u64.
    pub fn states(&self) -> u64
        ensures { result ≡ counted (states_given self.now.history) }
    {
        self.states
    }
}

/// What a close answers.
#[derive(Drop)]
pub enum CoClosed<C: Origin> {
    Ended(CoEnd<C>),
    /// The least coroutine that was scheduled and not entered since, and the table as it is.
    Left(u32, CoBuilt<C>),
}
