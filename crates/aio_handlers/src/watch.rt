//! Events as bits of a word.
ghost use Rattle.std.specs.Prelude.{◌≡◌, ◌≢◌, ◌<◌, ℕ, IsTrue, IsFalse};
ghost use Rattle.aio_model.specs.Handlers.Calls.{has_event};

/// Whether the bit of an event is set.
pub(crate) fn has_event(events: u64, event: u32) -> bool
    requires { event < 64 }
    ensures { result ≡ has_event events event }
{
    (events >> event) & 1 == 1
}

pub(crate) fn with_event(events: u64, event: u32) -> u64
    requires { event < 64 }
    ensures set { IsTrue (has_event result event) }
    ensures others { (other : ℕ) → other < 64 → other ≢ event → has_event result other ≡ has_event events other }
{
    events | 1 << event
}

pub(crate) fn without_event(events: u64, event: u32) -> u64
    requires { event < 64 }
    ensures cleared { IsFalse (has_event result event) }
    ensures others { (other : ℕ) → other < 64 → other ≢ event → has_event result other ≡ has_event events other }
{
    events & !(1 << event)
}
