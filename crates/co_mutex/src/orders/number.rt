//! The value behind the lock in these tests.
use crate::rule::LockRule;

/// A number behind a lock, whose note is the same whatever it is.
pub(crate) struct Number;

impl LockRule for Number {
    ghost use Rattle.std.specs.Prelude.{ℕ};

    type Value = u64;

    type Note = u64;

    ghost note = { λ _ _. 0 };
}
