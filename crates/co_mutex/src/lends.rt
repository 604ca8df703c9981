//! The guard lends its value. These clauses name the row of `Guard`, which the file that declares it can't import.
ghost use Rattle.std.specs.Prelude.{◌≡◌};
ghost use Rattle.std.specs.Borrow.{sem, follows};
ghost use Rattle.co_mutex.specs.contracts.lock.Guard.{the_row};
ghost use Rattle.co_mutex.specs.Lent.{with_value};

use crate::lock::Guard;
use crate::rule::LockRule;

impl<P: LockRule> Guard<P> {
    /// The value behind the lock. When the borrow ends, the guard has what was written through it.
    pub fn value(&mut self) -> &mut P::Value
        ensures* writes_back { sem 𝓛 (follows (the_row P.row P.Value.row P.Note.row) P.Value.row self.entry.ghost_name result.ghost_name with_value) }
        ensures value { result.now ≡ self.old.value }
    {
        &mut self.value
    }
}
