//! Replies put in the order of the journal.
ghost use Rattle.std.specs.Prelude.{◌≡◌, ◌≤◌, [], length, vec_capacity};
ghost use Rattle.img_join.specs.Placing.{HaveAll, placed_from};

use crate::buffers::Buffers;
use aio_model::{Bytes, Placed};
use img_shared::Entry;

/// The replies in the order of the journal, each under its stream's id.
pub(crate) fn place_all<D>(
    entries: &[Entry<D>],
    ids: &[u32],
    mut buffers: Buffers,
    served: &mut Vec<Placed>,
)
    requires all { HaveAll ids.now entries.now buffers }
    requires none { served.old.items ≡ [] }
    requires room { length entries.now ≤ vec_capacity served.old }
    ensures { served.new.items ≡ placed_from ids.now entries.now buffers }
{
    for entry in entries {
        let buffer = buffers.next(entry.stream);
        served.push_reserved(Placed {
            stream: ids[entry.stream as usize],
            index: entry.index,
            reply: entry.mark.into_reply(Bytes::of(buffer)),
        });
    }
}
