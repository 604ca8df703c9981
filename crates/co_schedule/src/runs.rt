//! The run of a home. A walk over the list meets the newest first, so it is filled from its end.
ghost use Rattle.std.specs.Prelude.{◌≡◌, ◌<◌, ◌≤◌, [], ◌∷◌, length, IfOk, MatchOption};

use aio_model::NoMemory;
use std::alloc::Global;
use std::marker::Model;

/// Coroutines that a home has taken and not begun.
#[derive(Drop)]
pub struct CoRun {
    /// The next one is the last.
    items: Vec<u32>,
    room: u32,
}

impl Model for CoRun {
    ghost use Rattle.std.specs.Prelude.{◌≤◌, reverse, vec_capacity};
    ghost use Rattle.co_schedule.specs.Calls.{RunState};

    ghost Value = { RunState };

    ghost view = { λ r. record { room = r.room; cos = reverse r.items.items } };

    ghost invariant = { λ r. r.room ≤ vec_capacity r.items };
}

impl CoRun {
    /// An empty run with room for so many. No later call takes memory.
    pub fn build(alloc: Global, room: u32) -> Result<CoRun, NoMemory>
        ensures { IfOk result (λ run. run ≡ record { room = room; cos = [] }) }
    {
        let Ok(items) = Vec::with_capacity(alloc, room as usize) else {
            return Err(NoMemory);
        };
        Ok(CoRun { items, room })
    }

    /// Puts a coroutine in front.
    pub(crate) fn push(&mut self, co: u32)
        requires { length self.old.cos < self.old.room }
        ensures { self.new ≡ record self.old { cos = co ∷ self.old.cos } }
    {
        self.items.push_reserved(co);
    }

    /// The next one.
    pub(crate) fn pop(&mut self) -> Option<u32>
        ensures next { MatchOption result (self.old.cos ≡ []) (λ co. self.old.cos ≡ co ∷ self.new.cos) }
        ensures rest { self.new ≡ record self.old { cos = self.new.cos } }
        ensures none { MatchOption result (self.new ≡ self.old) (λ _. Unit {0}) }
    {
        self.items.pop()
    }
}
