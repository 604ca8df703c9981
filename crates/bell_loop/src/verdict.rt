//! What the commit of a loop script answers.
ghost use Rattle.std.specs.Prelude.{◌≡◌};
ghost use Rattle.aio_model.specs.Loop.Log.{commit_from};
ghost use Rattle.aio_model.specs.Scripts.LoopLines.{HasNoDeadline};

use aio_model::{Commit, Why};

/// How long a loop sleeps at most while an idle bottom half is due, in nanoseconds.
const IDLE_SLEEP: u64 = 10_000_000;

/// The first that is urgent, else the least event that is set, else that somebody notified, else how long it may sleep.
pub(crate) fn verdict(urgent: Option<u32>, set: Option<u32>, rang: bool, due: bool) -> Commit
    ensures is { result ≡ commit_from urgent set rang due }
    ensures line { HasNoDeadline result }
{
    if let Some(bh) = urgent {
        return Commit::Awake(Why::Urgent(bh));
    }
    if let Some(event) = set {
        return Commit::Awake(Why::Event(event));
    }
    if rang {
        return Commit::Awake(Why::Notified);
    }
    Commit::Sleep(if due { Some(IDLE_SLEEP) } else { None })
}
