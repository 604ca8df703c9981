//! How a run of the program ended, and what it leaves.
ghost use Rattle.std.specs.Prelude.{◌≡◌};

use aio_model::Placed;
use aio_notify::LoopEnd;
use aio_run::RunEnd;
use aio_script::ScriptRefusal;
use aio_words::Device;
use bell_loop::Tag;
use img_streams::StreamCo;

/// How a run of the program ended.
#[derive(Clone, Copy, Debug, PartialEq, Eq)]
pub enum Answer {
    /// The script was served, all was written, and no reply is an error.
    Done,
    /// The script was served and all was written; so many replies are errors.
    Errors(u32),
    /// The words of the command line aren't those that it takes.
    Usage,
    /// The text isn't a script.
    BadScript(ScriptRefusal),
    /// The text has more bytes than a script may have.
    TooLong,
    /// The script's image has so many bytes, and the device so many, which are fewer.
    TooLarge(u64, u64),
    /// The text couldn't be read.
    ReadFault,
    /// The script was served, and not all of its replies could be written.
    WriteFault,
    /// Memory ran out before anything was served.
    NoMemory,
    /// The device didn't tell how many bytes it has.
    DeviceFault,
}

/// What a run of the program leaves: how it ended, the device, the replies in the order of their places, and the ends of
/// the script's loops in their order. There are no replies and no loops where nothing was served. In the mode of loop
/// scripts it leaves the end of that loop, where all was written.
#[derive(Drop)]
pub struct End<D: Device> {
    pub answer: Answer,
    pub device: D,
    pub served: Vec<Placed>,
    pub loops: Vec<RunEnd<StreamCo<D>>>,
    pub bells: Option<LoopEnd<Tag>>,
}

impl Answer {
    ghost use Rattle.aio_cli.specs.Answers.{status_of};

    /// The exit status of a program that ends so.
    pub fn status(&self) -> u8
        ensures { result ≡ status_of self.now }
    {
        match self {
            Answer::Done => 0,
            Answer::Errors(_) => 1,
            Answer::Usage => 2,
            Answer::BadScript(_) => 3,
            Answer::TooLong => 4,
            Answer::TooLarge(_, _) => 5,
            Answer::ReadFault => 6,
            Answer::WriteFault => 7,
            Answer::NoMemory => 8,
            Answer::DeviceFault => 9,
        }
    }
}

impl<D: Device> End<D> {
    ghost use Rattle.aio_cli.specs.Answers.{status_of};

    /// The exit status of the program.
    pub fn status(&self) -> u8
        ensures { result ≡ status_of self.now.answer }
    {
        self.answer.status()
    }
}
