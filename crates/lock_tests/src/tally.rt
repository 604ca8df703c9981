//! A tally behind a lock, noted by pass.
ghost use Rattle.aio_model.specs.Lock.Notes.{SameNotes};
ghost use Rattle.lock_tests.specs.Tallies.{own_of};

use co_mutex::LockRule;

/// How often a lock was held, and how often by each of four passes.
#[derive(Clone, Copy, Debug, PartialEq, Eq)]
pub struct Tally {
    pub sum: u64,
    pub own: [u64; 4],
}

impl Tally {
    /// One more hold of the pass of this number. Answers how often it held before, by its own number; None, and nothing is changed,
    /// where there is no such pass.
    pub fn count(&mut self, number: u32) -> Option<u64>
        ensures others { SameNotes own_of number self.old self.new }
    {
        let place = number as usize;
        if place >= self.own.len() {
            return None;
        }
        let held = self.own[place];
        self.own[place] = held.wrapping_add(1);
        self.sum = self.sum.wrapping_add(1);
        Some(held)
    }
}

/// A tally behind a lock. The note of a pass is how often it held.
pub struct Tallies;

impl LockRule for Tallies {
    type Value = Tally;

    type Note = u64;

    ghost note = { own_of };
}
