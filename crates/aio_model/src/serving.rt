//! Requests, their bytes and the replies to them.

mod bytes;
mod replies;
mod requests;

pub use bytes::Bytes;
pub use replies::{Placed, Reply};
pub use requests::Request;
