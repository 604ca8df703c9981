//! What a stream asks of the image.
use crate::Bytes;

/// What a stream asks of the image. Places and lengths are in bytes.
#[derive(Debug, PartialEq, Eq, Drop)]
pub enum Request {
    Read { at: u64, len: u32 },
    Write { at: u64, bytes: Bytes },
    Zero { at: u64, len: u32 },
    Flush,
}
