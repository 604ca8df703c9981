//! The phases of a stream at the image.
use img_requests::Present;

/// How far a stream's request is.
#[derive(Clone, Copy, Debug, PartialEq, Eq)]
pub enum Phase {
    /// It has none.
    Idle,
    /// It was queued, and its hold wasn't taken up.
    Waiting(Present),
    /// It has its hold: begun, whole or failed.
    Active(Present),
    /// The stream has no requests left.
    Retired,
}
