//! The count of states that came out with the coroutines that home entered.
ghost use Rattle.std.specs.Prelude.{◌≡◌, ◌+◌};
ghost use Rattle.aio_model.specs.Loop.FlagsWord.{bit};
ghost use Rattle.co_schedule.specs.Parcels.{has_some};
ghost use Rattle.aio_model.specs.Counts.{counted};

/// The count, and one more where there is a state. It stays at the greatest u64.
pub(crate) fn count_state<C>(states: u64, state: &Option<C>) -> u64
    ensures { result ≡ counted (states + bit (has_some state.now)) }
{
    match state {
        Some(_) => states.saturating_add(1),
        None => states,
    }
}
