//! What a coroutine is: a value that is resumed, and says what it wants then.
use crate::cx::Cx;

/// Where a coroutine's facts come from, such as which lock it waits for. Only contracts see it.
pub trait Origin {
    ghost use Rattle.std.specs.Prelude.{ℕ};

    type Source;

    /// The coroutine, under this number, is of this origin.
    ghost is_of: { ℕ → Self → Self.Source → Type 0 };
}

impl Origin for () {
    type Source = ();

    ghost is_of = { λ _ _ _. Unit {0} };
}

impl Origin for u64 {
    type Source = ();

    ghost is_of = { λ _ _ _. Unit {0} };
}

/// What a coroutine wants after a resume.
#[derive(Clone, Copy, Debug, PartialEq, Eq)]
pub enum CoStep {
    Done,
    /// To be entered again when it is woken.
    Yield,
    /// To be entered again after so many nanoseconds.
    Sleep(u64),
    /// To be entered again by the loop of this number.
    Move(u32),
}

/// A coroutine that may be lent an `E` at each resume.
pub trait Co<E>: Origin {
    ghost use Rattle.std.specs.Prelude.{◌≡◌, ℕ};
    ghost use Rattle.co_state.specs.Wants.{Wants, nothing_asked};
    ghost use Rattle.co_state.specs.declared.co.CoStep.{CoStep};

    /// The origin of what is lent.
    ghost source_of: { E → Self.Source };

    /// What one resume may do: the coroutine before, the origin of what is lent, what is asked for, the step, and
    /// the coroutine after.
    ghost resumes: { Self → Self.Source → Wants → CoStep → Self → Type 0 };

    fn resume(&mut self, env: &E, cx: &mut Cx) -> CoStep
        requires of { (number : ℕ) × Self.is_of number self.old (source_of env.now) }
        requires fresh { cx.old ≡ nothing_asked }
        ensures of { (number : ℕ) → Self.is_of number self.old (source_of env.now) → Self.is_of number self.new (source_of env.now) }
        ensures resumes { resumes self.old (source_of env.now) cx.new result self.new };
}
