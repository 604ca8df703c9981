//! The coroutine of a stream: it serves the stream's lines of a script on an image that many streams share, behind a lock.
//!
//! It steps on the words of the lock (`co_mutex`), by the stream's own pass. All else of a stream lies in its coroutine, and
//! goes with it from loop to loop. Whoever owns the coroutine resumes it; lock, script and gate are lent to it.
//!
//! What a resume does is told by the stream's state (`At`). Between two lines it looks for the next one: it answers a delay
//! with Sleep and a move with Move, passes the gate before a request and enters it, and retires where no line is left. A
//! request that was entered is served, or waits for its hold, or has its reply where it is refused. It is served piece by
//! piece, one a resume. If it waited, the resume that takes up its hold serves the first. Then it leaves, and the stream is
//! between two lines again. At the end the stream has gone.
//!
//! To enter, to take up a hold, to serve a piece, to leave and to retire are turns at the lock (`turns`): the pass gets the
//! lock, makes one call on the image, and gives the lock back. Taking up a hold makes two: the hold is taken up, and the
//! first piece is served. A pass that doesn't get the lock is queued, and the same turn goes on at the next resume.
//!
//! The image is the guard's in a turn, and lies in the lock between turns. The stream's hold lasts from turn to turn.
//!
//! A resume asks to wake whom the lock named and whom the image named, and the stream itself where it waits for neither. The
//! last stream that retires asks that the loops end.
#![tactic(auto)]

mod answers;
mod boxed;
mod buffers;
mod closing;
mod gate;
mod hold;
mod image_calls;
mod lines;
mod links;
mod progress;
mod room;
mod rule;
mod states;
mod stream;
pub mod turns;
mod wakes;

pub use answers::{Grant, Visit};
pub use boxed::BoxedImage;
pub use closing::settle;
pub use gate::Passed;
pub use links::LineLinks;
pub use progress::At;
pub use room::Room;
pub use rule::{ImageRule, StreamNote};
pub use stream::{ServeEnv, Stream, StreamCo};
