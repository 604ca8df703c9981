//! Coroutines that have retired are taken apart.
ghost use Rattle.std.specs.Prelude.{◌≡◌, ◌+◌, ◌≤◌, ◌++◌, length, map, vec_capacity};
ghost use Rattle.stream_ends.specs.Stops.{bytes_filled};

use crate::room::EndRoom;
use aio_words::Device;
use img_streams::{ImageRule, StreamCo};
use std::collections::VecDeque;

/// Puts each coroutine's pass and its filled buffers behind those that are there. Takes no memory.
pub(crate) fn gather<D: Device>(streams: Vec<StreamCo<D>>, ends: &mut EndRoom<ImageRule<D>>)
    requires passes { length ends.old.passes.items + length streams.items ≤ vec_capacity ends.old.passes }
    requires rows { length ends.old.rows.items + length streams.items ≤ vec_capacity ends.old.rows }
    ensures passes { ends.new.passes.items ≡ ends.old.passes.items ++ map (λ co. co.pass) streams.items }
    ensures rows { map (λ row. map (λ buffer. buffer.items) row.items) ends.new.rows.items
        ≡ map (λ row. map (λ buffer. buffer.items) row.items) ends.old.rows.items ++ map bytes_filled streams.items }
    ensures same { (ends.new.ids ≡ ends.old.ids) × (ends.new.served ≡ ends.old.served) }
{
    for co in streams {
        let (pass, filled) = co.into_parts();
        ends.passes.push_reserved(pass);
        ends.rows.push_reserved(VecDeque::from_vec(filled));
    }
}
