//! Text to script, and replies to text.
#![tactic(auto)]

mod image;
mod loops;
mod page;
mod print;
mod refusals;
mod text;

pub use aio_model::{
    Act, ActKind, Acts, Bytes, Called, Command, Commands, LoopReply, LoopScript, Placed, RanList,
    Reply, Request, Script, Step, Steps, Stream, Streams, What,
};
pub use image::{print_end, print_line, read_script};
pub use loops::{print_poll, print_reply, read_loop_script};
pub use page::{Page, hand_over};
pub use print::{WriteFault, print_numbered, print_text};
pub use refusals::{ScriptFail, ScriptRefusal};
