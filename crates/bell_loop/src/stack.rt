//! What callbacks that wait for a nested poll have still to do.
ghost use Rattle.std.specs.Prelude.{◌≡◌, ◌<◌, ◌∷◌, [], length, IfOk, MatchOption};

use aio_model::{ActKind, NoMemory};
use std::alloc::Global;
use std::marker::Model;

/// How many polls may stand in one another below the outermost, and so how many callbacks may wait for a nested one.
pub const MOST_WAITING: usize = 7;

/// What the callbacks that wait for a nested poll have still to do. Contracts see the list, with the last that nested in front. It
/// takes memory when it is built, and never again.
#[derive(Drop)]
pub struct Stack<'a> {
    lists: Vec<&'a [ActKind]>,
}

impl<'a> Model for Stack<'a> {
    ghost use Rattle.std.specs.Prelude.{List, reverse, map, ◌≤◌, vec_capacity};
    ghost use Rattle.aio_model.specs.declared.scripts.loop_scripts.ActKind.{ActKind};

    ghost Value = { List (List ActKind) };

    ghost view = { λ s. reverse (map (λ l. l.now) s.lists.items) };

    ghost invariant = { λ s. 7 ≤ vec_capacity s.lists };
}

impl<'a> Stack<'a> {
    pub fn build(alloc: Global) -> Result<Stack<'a>, NoMemory>
        ensures { IfOk result (λ built. built ≡ []) }
    {
        let Ok(lists) = Vec::with_capacity(alloc, MOST_WAITING) else {
            return Err(NoMemory);
        };
        Ok(Stack { lists })
    }

    pub fn len(&self) -> usize
        ensures { result ≡ length self.now }
    {
        self.lists.len()
    }

    pub fn push(&mut self, list: &'a [ActKind])
        requires { length self.old < 7 }
        ensures { self.new ≡ list.now ∷ self.old }
    {
        self.lists.push_reserved(list);
    }

    pub fn pop(&mut self) -> Option<&'a [ActKind]>
        ensures { MatchOption result ((self.old ≡ []) × (self.new ≡ [])) (λ top. self.old ≡ top.now ∷ self.new) }
    {
        self.lists.pop()
    }
}
