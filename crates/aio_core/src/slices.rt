//! The words that lead to what home has taken, oldest slice first.
ghost use Rattle.std.specs.Prelude.{◌≡◌, ◌<◌, [], ◌∷◌, ◌++◌, length, Option, Some, None, MatchOption, drop, slice_index};
ghost use Rattle.aio_core.specs.Standing.{with_slice, without_first};

use std::marker::Model;

/// Each frame of nested polls takes one slice at most, and polls nest to this depth; a scan has one more.
pub const MOST: usize = 8;

#[derive(Drop)]
pub struct Slices {
    words: [u64; 9],
    count: usize,
}

impl Model for Slices {
    ghost use Rattle.std.specs.Prelude.{List, ℕ, take, ◌≤◌};

    ghost Value = { List ℕ };

    ghost view = { λ s. take s.count s.words };

    ghost invariant = { λ s. s.count ≤ 9 };
}

impl Slices {
    pub fn none() -> Slices
        ensures { result ≡ [] }
    {
        Slices {
            words: [0; 9],
            count: 0,
        }
    }

    /// The same behind one more; 0 leads to none.
    pub fn behind(&self, word: u64) -> Slices
        requires { length self.now < 9 }
        ensures { result ≡ without_first word self.now }
    {
        let mut words = self.words;
        let mut count = self.count;
        if word != 0 {
            words.copy_within(0..count, 1);
            words[0] = word;
            count += 1;
        }
        Slices { words, count }
    }

    #[inline(always)]
    pub fn first(&self) -> Option<u64>
        ensures { MatchOption result (self.now ≡ []) (λ word. self.now ≡ word ∷ drop 1 self.now) }
    {
        if self.count == 0 {
            None
        } else {
            Some(self.words[0])
        }
    }

    /// A slice behind the others; 0 leads to none.
    #[inline(always)]
    pub fn push(&mut self, word: u64)
        requires { length self.old < 8 }
        ensures { self.new ≡ with_slice self.old word }
    {
        if word != 0 {
            self.words[self.count] = word;
            self.count += 1;
        }
    }

    /// The first slice begins at this word now; at 0 it is over.
    #[inline(always)]
    pub fn lift(&mut self, word: u64)
        requires { self.old ≡ slice_index self.old 0 ∷ drop 1 self.old }
        ensures { self.new ≡ without_first word (drop 1 self.old) }
    {
        if word != 0 {
            self.words[0] = word;
        } else {
            self.words.copy_within(1..self.count, 0);
            self.count -= 1;
        }
    }
}
