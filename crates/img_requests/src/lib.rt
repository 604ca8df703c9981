//! The image: requests are entered, served by pieces of at most 4,096 bytes on a device, and left with a place in the
//! journal. A request that reaches past the image's end is refused as it is entered, and has its place then.
#![tactic(auto)]

mod answers;
mod calls;
mod image;
mod journal;
mod ledger;
mod present;

pub use answers::{Enter, Left, Piece};
pub use calls::serve_piece;
pub use image::Image;
pub use journal::{Entry, Mark};
pub use present::{PIECE, Present, RequestKind, Stage};
