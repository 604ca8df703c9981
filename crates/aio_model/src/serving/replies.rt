//! What comes of a request.
ghost use Rattle.std.specs.Prelude.{◌≡◌};

use crate::Bytes;

/// What came of a request.
#[derive(Debug, PartialEq, Eq, Drop)]
pub enum Reply {
    /// A write of so many bytes.
    Put(u32),
    /// The bytes that a read found.
    Got(Bytes),
    /// So many bytes were made zero.
    Zeroed(u32),
    Flushed,
    /// The device failed after so many bytes (Linux's error 5).
    Eio(u32),
    /// The request reaches past the image's end (Linux's error 22).
    Einval,
}

impl Reply {
    ghost use Rattle.aio_model.specs.Serving.SerialHistory.{is_error};

    pub fn is_error(&self) -> bool
        ensures { result ≡ is_error self.now }
    {
        matches!(self, Reply::Eio(_) | Reply::Einval)
    }
}

/// A reply, and the request that it answers: the one with this place among the requests of this stream, from 0.
#[derive(Debug, PartialEq, Eq, Drop)]
pub struct Placed {
    pub stream: u32,
    pub index: u32,
    pub reply: Reply,
}
