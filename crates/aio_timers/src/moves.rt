//! Timers that go over from one row to another.
ghost use Rattle.std.specs.Prelude.{◌≡◌, length};
ghost use Rattle.aio_timers.specs.Moving.{Moves};

use crate::key_tree::{KeyTree, NONE};

/// Moves the keys up to the last, least first.
pub(crate) fn move_keys(from: &mut KeyTree, to: &mut KeyTree, last: u128)
    requires { length to.old ≡ length from.old }
    ensures { Moves from.old to.old from.new to.new last }
{
    while let Some(place) = from.place_of_least_up_to(last) {
        let key = from.key(place);
        from.set(place, NONE);
        to.set(place, key);
    }
}
