//! The image that many streams share: each holds it for reading or writing while its request is served, and a request gets
//! its place in the journal as it leaves. In whatever order the streams come, the journal is a serial history: each entry has
//! the bytes before and after it, which contracts alone see.
//!
//! It has no word that threads share. Who calls it has it whole for that call; `img_streams` keeps it behind a lock of
//! coroutines.
//!
//! Each stream has a phase (`Phase`), which only calls under its own number change. `enter` makes it active where the stream
//! gets its hold, and waiting where it is queued. Where the request is refused the stream stays idle, and the request has its
//! place at once. `granted` makes it active once `holds`. `piece` serves the request of an active one, and `leave` makes it
//! idle again. `retire` makes it retired, once all its requests have their places.
//!
//! A hold outlasts the call: it is the stream's from `enter` or `granted` to `leave`, while other streams make their calls.
//! Readers hold the image together, and a writer alone. A waiting stream has a ticket, or a hold that it hasn't taken up.
//! `leave` and `granted` name the stream that gets its hold by them, and the caller wakes it.
//!
//! The image owns the device until `into_device`. Its bytes change only by pieces of the one stream that writes.
#![tactic(auto)]

mod image;
mod journal;
mod phases;

pub use image::Image;
pub use img_requests::{Enter, Left, Mark, Piece};
pub use journal::Entry;
pub use phases::Phase;
