//! A row of seats: its owner may step on each loop's tables, under the same numbers everywhere.
ghost use Rattle.std.specs.Prelude.{◌≡◌, ◌<◌, ◌≤◌, ◌+◌, ◌*◌, length, vec_len, vec_capacity};
ghost use Rattle.loop_rows.specs.Rows.{IsRow, DividesRow, UnitesRow};

use crate::seats::{Seats, divide, unite};
use crate::shared::LoopShared;
use co_state::Origin;

/// One seat of each loop's tables. All have the same numbers.
#[derive(Drop)]
pub struct Row<C: Origin> {
    pub first: u32,
    pub count: u32,
    pub seats: Vec<Seats<C>>,
}

impl<C: Origin + Drop> Row<C> {
    /// Cuts the last half of the numbers off from each seat, for another thread. The new row's seats come into `spare`: it takes no
    /// memory.
    pub fn split(&mut self, shared: &[LoopShared<C>], half: u32, spare: Vec<Seats<C>>) -> Row<C>
        requires row { IsRow shared.now self.old }
        requires half { (0 < half) × (self.old.count ≡ 2 * half) }
        requires spare { (vec_len spare ≡ 0) × (length shared.now ≤ vec_capacity spare) }
        ensures { DividesRow half shared.now self.old self.new result }
    {
        let mut seats = spare;
        for t in 0..shared.len() {
            seats.push_reserved(divide(&shared[t], &mut self.seats[t], half));
        }
        self.count = half;
        Row {
            first: self.first + half,
            count: half,
            seats,
        }
    }

    /// Puts the numbers of each seat of the other row behind those of this one's. It takes no memory.
    pub fn join(&mut self, shared: &[LoopShared<C>], other: Row<C>)
        requires row { IsRow shared.now self.old }
        requires other { IsRow shared.now other }
        requires next { (other.first ≡ self.old.first + self.old.count) × (0 < other.count) }
        ensures { UnitesRow shared.now self.old other self.new }
    {
        let Row {
            first: _,
            count,
            mut seats,
        } = other;
        while let Some(seat) = seats.pop() {
            let t = seats.len();
            unite(&shared[t], &mut self.seats[t], seat);
        }
        self.count += count;
    }
}
