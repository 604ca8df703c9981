//! The buffers of a stream's requests, in order.
ghost use Rattle.std.specs.Prelude.{◌≡◌, ◌<◌, ◌∷◌, [], ◌++◌, length, vec_capacity};

use std::collections::VecDeque;
use std::mem;

/// Goes on to the buffer of the next request, and puts the one at hand behind those that are filled.
pub(crate) fn go_on(filled: &mut Vec<Vec<u8>>, buffer: &mut Vec<u8>, later: &mut VecDeque<Vec<u8>>)
    requires room { length filled.old.items < vec_capacity filled.old }
    requires some { 0 < length later.old.items }
    ensures filled { filled.new.items ≡ filled.old.items ++ buffer.old ∷ [] }
    ensures capacity { vec_capacity filled.new ≡ vec_capacity filled.old }
    ensures next { later.old.items ≡ buffer.new ∷ later.new.items }
{
    let Some(next) = later.pop_front() else {
        unreachable!()
    };
    filled.push_reserved(mem::replace(buffer, next));
}
