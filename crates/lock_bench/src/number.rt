//! A number behind a lock.
use co_mutex::LockRule;

/// A number behind a lock, whose note is the same whatever it is.
pub struct Number;

impl LockRule for Number {
    ghost use Rattle.std.specs.Prelude.{ℕ};

    type Value = u64;

    type Note = u64;

    ghost note = { λ _ _. 0 };
}
