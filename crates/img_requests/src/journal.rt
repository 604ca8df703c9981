//! What stands of a request once it has its reply.
ghost use Rattle.std.specs.Prelude.{◌≡◌};

use aio_model::{Bytes, Reply};

/// What came of a request, without the bytes that a read found: they stand in the buffer that its pieces filled.
#[derive(Clone, Copy, Debug, PartialEq, Eq)]
pub enum Mark {
    Put(u32),
    /// A read of so many bytes.
    Got(u32),
    Zeroed(u32),
    Flushed,
    Eio(u32),
    Einval,
}

impl Mark {
    ghost use Rattle.img_requests.specs.Journal.{reply_of};

    /// The reply, where a read found these bytes.
    pub fn into_reply(self, found: Bytes) -> Reply
        ensures { result ≡ reply_of self found }
    {
        match self {
            Mark::Put(n) => Reply::Put(n),
            Mark::Got(_) => Reply::Got(found),
            Mark::Zeroed(n) => Reply::Zeroed(n),
            Mark::Flushed => Reply::Flushed,
            Mark::Eio(k) => Reply::Eio(k),
            Mark::Einval => Reply::Einval,
        }
    }
}

/// What stands in the journal of a request: the one with this place among the requests of this stream, from 0.
#[derive(Clone, Copy, Debug, PartialEq, Eq)]
pub struct Entry {
    pub stream: u32,
    pub index: u32,
    pub mark: Mark,
}
