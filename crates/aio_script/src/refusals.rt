//! Why no script was read.
ghost use Rattle.std.specs.Prelude.{◌≡◌};
ghost use Rattle.aio_script.specs.declared.refusals.ScriptFail.TheVariants.{NoMemory, Refused};

use std::alloc::AllocFailed;

/// Why a text is no script: the first line that can't stand where it does, by its number from 1. Lines that say
/// nothing are counted too. On one line the order is that of the variants.
#[derive(Clone, Copy, Debug, PartialEq, Eq)]
pub enum ScriptRefusal {
    /// It is of no form, or declares a stream once more.
    BadLine(u32),
    /// A number or data of it is none.
    BadNumber(u32),
    OutOfLimit(u32),
    /// No line above declares its stream.
    UnknownStream(u32),
    /// The text doesn't begin with an `image` line and a `loops` line.
    NoHeader,
}

/// Why a text was not read.
#[derive(Clone, Copy, Debug, PartialEq, Eq)]
pub enum ScriptFail {
    Refused(ScriptRefusal),
    /// Memory ran out before the text was read whole. Whether it is a script is left open.
    NoMemory,
}

impl<T: Drop> From<AllocFailed<T>> for ScriptFail {
    ghost from_gives = { λ _ fail. fail ≡ NoMemory };

    fn from(_failed: AllocFailed<T>) -> ScriptFail {
        ScriptFail::NoMemory
    }
}

impl From<ScriptRefusal> for ScriptFail {
    ghost from_gives = { λ refusal fail. fail ≡ Refused refusal };

    fn from(refusal: ScriptRefusal) -> ScriptFail {
        ScriptFail::Refused(refusal)
    }
}
