//! The coroutine of these tests.
use co_state::Origin;

/// A coroutine that carries nothing.
#[derive(Clone, Copy, Debug, PartialEq, Eq)]
pub(crate) struct Sleeper;

impl Origin for Sleeper {
    type Source = ();

    ghost is_of = { λ _ _ _. Unit {0} };
}
