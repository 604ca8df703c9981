//! The call of a callback, as that sees it.
ghost use Rattle.std.specs.Prelude.{◌≡◌, true, false, None};

/// What a callback is lent for one entry. Only a poll makes one, and lends it, so that nobody has one outside a callback.
#[derive(Drop)]
pub struct Call<J> {
    /// The bottom half that was dequeued.
    pub bh: u32,
    /// The job of a one-shot, at its first entry.
    pub job: Option<J>,
    /// False where the callback goes on after a nested poll.
    pub first: bool,
    /// How many nested polls it may still ask for.
    pub nests_left: u32,
    by_poll: (),
}

impl<J> Call<J> {
    /// The first entry into a callback, with the job of a one-shot.
    #[inline(always)]
    pub(crate) fn first_entry(bh: u32, job: Option<J>, nests_left: u32) -> Call<J>
        ensures { (result.bh ≡ bh) × (result.job ≡ job) × (result.first ≡ true) × (result.nests_left ≡ nests_left) }
    {
        Call {
            bh,
            job,
            first: true,
            nests_left,
            by_poll: (),
        }
    }

    /// A further entry, behind a nested poll.
    pub(crate) fn further_entry(bh: u32, nests_left: u32) -> Call<J>
        ensures { (result.bh ≡ bh) × (result.job ≡ None) × (result.first ≡ false) × (result.nests_left ≡ nests_left) }
    {
        Call {
            bh,
            job: None,
            first: false,
            nests_left,
            by_poll: (),
        }
    }
}
