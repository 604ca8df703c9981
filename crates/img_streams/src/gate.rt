//! The gate before each request.
ghost use Rattle.std.specs.Prelude.{◌≡◌};
ghost use Rattle.co_mutex.specs.Passes.{known};
ghost use Rattle.co_mutex.specs.Places.{AtRest};

use aio_words::Gate;
use co_mutex::{LockRule, Pass};

/// That a stream passed the gate to begin its request of this index. `through` alone makes one.
#[derive(Clone, Copy, Debug, PartialEq, Eq)]
pub struct Passed {
    stream: u32,
    index: u32,
}

impl Passed {
    /// Passes the gate, by a stream whose pass neither has the lock nor waits for it.
    pub fn through<P: LockRule, G: Gate>(
        gate: &G,
        pass: &Pass<P>,
        stream: u32,
        index: u32,
    ) -> Passed
        requires rest { (known pass.now).place ≡ AtRest }
        ensures passed { result ≡ record { stream = stream; index = index } }
    {
        let _ = pass;
        gate.pass(stream, index);
        Passed { stream, index }
    }
}
