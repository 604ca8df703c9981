//! The flags of a bottom half, and the word that stands for them.
ghost use Rattle.std.specs.Prelude.{◌≡◌, ◌<◌};

/// The five flags of a bottom half, as a call on it found them.
#[derive(Clone, Copy, Debug, PartialEq, Eq)]
pub struct Flags {
    /// Enqueued, and not dequeued since.
    pub pending: bool,
    /// To be called at its next dequeue.
    pub scheduled: bool,
    /// Never to be called again in this life.
    pub deleted: bool,
    /// Its life ends once it was called.
    pub oneshot: bool,
    /// Neither wakes the loop nor counts as progress.
    pub idle: bool,
}

impl Flags {
    ghost use Rattle.aio_model.specs.Loop.FlagsWord.{flags_in, word_of};

    pub const PENDING: u64 = 1;

    pub const SCHEDULED: u64 = 2;

    pub const DELETED: u64 = 4;

    pub const ONESHOT: u64 = 8;

    pub const IDLE: u64 = 16;

    pub fn from_word(word: u64) -> Flags
        requires { word < 32 }
        ensures value { result ≡ flags_in word }
        ensures inverse { word_of result ≡ word }
    {
        Flags {
            pending: word & Flags::PENDING != 0,
            scheduled: word & Flags::SCHEDULED != 0,
            deleted: word & Flags::DELETED != 0,
            oneshot: word & Flags::ONESHOT != 0,
            idle: word & Flags::IDLE != 0,
        }
    }

    pub fn word(self) -> u64
        ensures value { result ≡ word_of self }
        ensures small { result < 32 }
        ensures inverse { flags_in result ≡ self }
    {
        u64::from(self.pending) * Flags::PENDING
            + u64::from(self.scheduled) * Flags::SCHEDULED
            + u64::from(self.deleted) * Flags::DELETED
            + u64::from(self.oneshot) * Flags::ONESHOT
            + u64::from(self.idle) * Flags::IDLE
    }
}
