//! Coroutines that do as they are told.
use co_state::{Co, CoId, CoStep, Cx, Origin};
use std::sync::atomic::{AtomicU64, Ordering};

/// What a player does in one resume.
#[derive(Clone, Copy, Debug, PartialEq, Eq)]
pub(crate) enum Act {
    Done,
    Yield,
    /// Wakes this one, and yields.
    Wake(CoId),
    Sleep(u64),
    Move(u32),
    /// Asks all loops to end, and is done.
    Quit,
}

/// What all players are lent: how many resumes there were.
#[derive(Drop)]
pub(crate) struct Stage {
    pub(crate) resumes: AtomicU64,
}

/// Does its acts in order, one in each resume, and is done behind the last. It notes which resume of all its last one was.
#[derive(Clone, Copy, Debug, PartialEq, Eq)]
pub(crate) struct Player {
    pub(crate) acts: [Act; 2],
    pub(crate) next: usize,
    pub(crate) last: u64,
}

impl Player {
    pub(crate) fn of(first: Act, second: Act) -> Player {
        Player {
            acts: [first, second],
            next: 0,
            last: 0,
        }
    }
}

impl Origin for Player {
    type Source = ();

    ghost is_of = { λ _ _ _. Unit {0} };
}

impl Co<Stage> for Player {
    ghost source_of = { λ _. tt };

    ghost resumes = { λ _ _ _ _ _. Unit {0} };

    fn resume(&mut self, env: &Stage, cx: &mut Cx) -> CoStep {
        self.last = env.resumes.fetch_add(1, Ordering::SeqCst).wrapping_add(1);
        let act = self.acts.get(self.next).copied().unwrap_or(Act::Done);
        self.next = self.next.wrapping_add(1);
        match act {
            Act::Done => CoStep::Done,
            Act::Yield => CoStep::Yield,
            Act::Wake(id) => {
                cx.wake(id);
                CoStep::Yield
            }
            Act::Sleep(ns) => CoStep::Sleep(ns),
            Act::Move(to) => CoStep::Move(to),
            Act::Quit => {
                cx.quit();
                CoStep::Done
            }
        }
    }
}
