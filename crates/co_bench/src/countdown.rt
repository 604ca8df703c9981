//! A coroutine that yields so many times.
use co_state::{Co, CoStep, Cx, Origin};

/// Yields so many times, and then is done.
#[derive(Clone, Copy, Debug, PartialEq, Eq)]
pub struct Countdown {
    pub left: u32,
}

impl Countdown {
    /// One resume. Whether it is done.
    pub fn step(&mut self) -> bool {
        if self.left == 0 {
            return true;
        }
        self.left -= 1;
        false
    }
}

impl Origin for Countdown {
    type Source = ();

    ghost is_of = { λ _ _ _. Unit {0} };
}

impl Co<()> for Countdown {
    ghost source_of = { λ _. tt };

    ghost resumes = { λ _ _ _ _ _. Unit {0} };

    fn resume(&mut self, _env: &(), _cx: &mut Cx) -> CoStep {
        if self.step() {
            CoStep::Done
        } else {
            CoStep::Yield
        }
    }
}
