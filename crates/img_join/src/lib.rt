//! From an image that all streams have left to the replies of a script: the journal gives their order, the streams'
//! buffers give what reads found, and together they are a serial history of the script.
#![tactic(auto)]

mod buffers;
mod finishing;
mod placing;

pub use buffers::Buffers;
pub use finishing::finish;
