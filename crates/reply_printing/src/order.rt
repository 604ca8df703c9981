//! Room to find replies by their requests.
ghost use Rattle.std.specs.Prelude.{◌≡◌, IfOk};

use crate::links::{Links, STREAMS};
use std::alloc::{AllocError, Global};
use std::marker::Model;

/// Room to find the replies of a script's requests among those that were served. Contracts see for how many replies it
/// has room.
#[derive(Drop)]
pub struct ReplyOrder {
    pub(crate) links: Links,
}

impl Model for ReplyOrder {
    ghost use Rattle.std.specs.Prelude.{ℕ, length};

    ghost Value = { ℕ };

    ghost view = { λ order. length order.links.behind.items };
}

impl ReplyOrder {
    /// Room for so many replies, four bytes each. All its memory is taken here.
    pub fn build(alloc: Global, replies: usize) -> Result<ReplyOrder, AllocError>
        ensures { IfOk result (λ order. order ≡ replies) }
    {
        Ok(ReplyOrder {
            links: Links {
                next: [0; STREAMS],
                behind: vec![in alloc; 0; replies]?,
            },
        })
    }
}
