//! What a run of loops begins with.
ghost use Rattle.std.specs.Prelude.{◌≡◌, ◌<◌, ◌≤◌, ◌+◌, ◌-◌, ◌*◌, List, length, vec_len, vec_capacity};
ghost use Rattle.loop_rows.specs.declared.seats.Seats.{Seats};
ghost use Rattle.loop_rows.specs.Rows.{IsRow, HasNumbers};
ghost use Rattle.co_loop.specs.Working.{CanWork};
ghost use Rattle.loop_threads.specs.Dealing.{ArePairs, RowSees, RowsSee};
ghost use Rattle.loop_rows.specs.Opening.{HomesEach};
ghost use Rattle.loop_threads.specs.Parts.{AllParts, InReverse};
ghost use Rattle.loop_threads.specs.Reserving.{IsReserved};
ghost use Rattle.loop_threads.specs.Running.{CanBeginEach, BeginEach, IsPrepared, PartsSee};

use crate::dealing::{cut_in_pairs, join_pairs};
use crate::ending::LoopRun;
use crate::hands::Hand;
use crate::members::Member;
use crate::parts::Part;
use crate::reserving::Reserved;
use co_loop::CoWork;
use co_state::Origin;
use loop_rows::{Homes, LoopShared, Row};
use std::sync::atomic::AtomicBool;

/// A row of all numbers is cut in halves so often, and gives 32 rows of two.
const CUTS: u32 = 5;

/// All that a run needs: its parts, the last loop's first, the caller's own row, and room.
#[derive(Drop)]
pub struct Prepared<C: Origin, W> {
    pub parts: Vec<Part<C, W>>,
    pub mine: Row<C>,
    pub handed_back: Vec<AtomicBool>,
    pub left: Vec<Part<C, W>>,
    pub other: Vec<Part<C, W>>,
    pub late: Vec<Part<C, W>>,
    pub done: Vec<Part<C, W>>,
    pub members: Vec<Member<C, W>>,
    pub ends: Vec<LoopRun<C, W>>,
}

/// The parts, the last loop's first; each gets the last row of two numbers that is left.
fn deal_parts<C: Origin + Drop, K: Drop>(
    shared: &[LoopShared<C>],
    mut homes: Vec<Homes<C>>,
    mut hands: Vec<Hand<CoWork<C, K>>>,
    pairs: &mut Vec<Row<C>>,
    parts: Vec<Part<C, CoWork<C, K>>>,
) -> Vec<Part<C, CoWork<C, K>>>
    requires few { length shared.now ≤ 16 }
    requires homes { (vec_len homes ≡ length shared.now) × HomesEach (length shared.now) shared.now homes.items }
    requires hands { (vec_len hands ≡ length shared.now) × CanBeginEach (CanWork C.is_of) shared.now homes.items hands.items }
    requires pairs { (vec_len pairs.old ≡ 32) × ArePairs shared.now pairs.old.items }
    requires room { (vec_len parts ≡ 0) × (length shared.now ≤ vec_capacity parts) }
    ensures parts { (vec_len result ≡ length shared.now) × AllParts (CanWork C.is_of) shared.now result.items × InReverse result.items }
    ensures begins { BeginEach (length shared.now) homes.items hands.items result.items }
    ensures pairs { (vec_len pairs.new ≡ 32 - length shared.now) × ArePairs shared.now pairs.new.items }
    ensures sees { (whole : List (Seats C C.Source)) → RowsSee (length shared.now) whole pairs.old.items → RowsSee (length shared.now) whole pairs.new.items × PartsSee (vec_len result) (length shared.now) whole result.items }
{
    let mut parts = parts;
    while let Some(one) = homes.pop() {
        let Some(hand) = hands.pop() else {
            unreachable!()
        };
        let Some(row) = pairs.pop() else {
            unreachable!()
        };
        parts.push_reserved(Part {
            number: homes.len(),
            home: one.home,
            side: hand.side,
            lot_pass: one.lot_pass,
            coroutines: one.coroutines,
            row,
            work: hand.work,
            carried: false,
        });
    }
    parts
}

/// Deals the row of all numbers: each loop's thread gets two of them, and the caller keeps the rest. The loops are at most 16, each with
/// its homes and what is to be done on it. It takes no memory, so what is done by the whole row can be done before.
pub fn prepare<C: Origin + Drop, K: Drop>(
    reserved: Reserved<C, CoWork<C, K>>,
    shared: &[LoopShared<C>],
    homes: Vec<Homes<C>>,
    hands: Vec<Hand<CoWork<C, K>>>,
    row: Row<C>,
) -> Prepared<C, CoWork<C, K>>
    requires few { length shared.now ≤ 16 }
    requires reserved { IsReserved (length shared.now) reserved }
    requires homes { (vec_len homes ≡ length shared.now) × HomesEach (length shared.now) shared.now homes.items }
    requires hands { (vec_len hands ≡ length shared.now) × CanBeginEach (CanWork C.is_of) shared.now homes.items hands.items }
    requires row { IsRow shared.now row × HasNumbers 0 64 row }
    ensures prepared { IsPrepared (CanWork C.is_of) shared.now result }
    ensures begins { BeginEach (length shared.now) homes.items hands.items result.parts.items }

    // The rows have seen what the whole row had, and made what they own of it.
    ensures mine { RowSees (length shared.now) row.seats.items result.mine.seats.items }
    ensures parts { PartsSee (length shared.now) (length shared.now) row.seats.items result.parts.items }
{
    let Reserved {
        mut spares,
        mut pairs,
        parts,
        handed_back,
        left,
        other,
        late,
        done,
        members,
        ends,
    } = reserved;
    cut_in_pairs(shared, row, CUTS, &mut spares, &mut pairs);
    Prepared {
        parts: deal_parts(shared, homes, hands, &mut pairs, parts),
        mine: join_pairs(shared, pairs),
        handed_back,
        left,
        other,
        late,
        done,
        members,
        ends,
    }
}
