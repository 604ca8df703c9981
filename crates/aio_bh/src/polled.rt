//! The answer of a poll.
ghost use Rattle.std.specs.Prelude.{◌≡◌, false};

/// What a poll tells. The counts stay at the greatest u64.
#[derive(Clone, Copy, Debug, PartialEq, Eq)]
pub struct Polled {
    /// Whether a callback was called whose call was not idle.
    pub progress: bool,
    /// How many callbacks were called.
    pub ran: u64,
    /// How often a callback asked for a nested poll and got none.
    pub cut_nests: u64,
}

impl Polled {
    /// Of a poll that has called nothing yet.
    #[inline(always)]
    pub(crate) fn zero() -> Polled
        ensures { result ≡ record { progress = false; ran = 0; cut_nests = 0 } }
    {
        Polled {
            progress: false,
            ran: 0,
            cut_nests: 0,
        }
    }
}
