//! Coroutines that go from loop to loop.
use co_state::{Co, CoStep, Cx, Origin};
use std::sync::atomic::{AtomicU64, Ordering};

/// What all walkers are lent: how many loops and walkers there are, and how many walkers have come to their ends.
#[derive(Drop)]
pub(crate) struct Ring {
    pub(crate) loops: u32,
    pub(crate) walkers: u64,
    pub(crate) arrived: AtomicU64,
}

/// Goes to the next loop so many times. The last of all that are done asks the loops to end.
#[derive(Clone, Copy, Debug, PartialEq, Eq)]
pub(crate) struct Walker {
    pub(crate) at: u32,
    pub(crate) left: u32,
}

/// The loop behind this one.
fn next(at: u32, loops: u32) -> u32 {
    let next = at.wrapping_add(1);
    if next < loops { next } else { 0 }
}

impl Origin for Walker {
    type Source = ();

    ghost is_of = { λ _ _ _. Unit {0} };
}

impl Co<Ring> for Walker {
    ghost source_of = { λ _. tt };

    ghost resumes = { λ _ _ _ _ _. Unit {0} };

    fn resume(&mut self, env: &Ring, cx: &mut Cx) -> CoStep {
        if self.left > 0 {
            self.left -= 1;
            self.at = next(self.at, env.loops);
            return CoStep::Move(self.at);
        }
        let arrived = env.arrived.fetch_add(1, Ordering::SeqCst).wrapping_add(1);
        if arrived == env.walkers {
            cx.quit();
        }
        CoStep::Done
    }
}
