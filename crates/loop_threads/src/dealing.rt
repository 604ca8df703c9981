//! Each loop gets a row of seats for its thread, and the caller keeps the others.
ghost use Rattle.std.specs.Prelude.{◌≡◌, ◌<◌, ◌≤◌, ◌+◌, ◌-◌, ◌*◌, List, length, vec_len, vec_capacity};
ghost use Rattle.loop_rows.specs.declared.seats.Seats.{Seats};
ghost use Rattle.loop_rows.specs.Rows.{IsRow, HasNumbers};
ghost use Rattle.loop_threads.specs.Dealing.{IsDoubled, ArePairs, AreSpares, RowSeen, RowSees, RowsSee};
ghost use Rattle.loop_threads.specs.Within.{OwnEach};

use co_state::Origin;
use loop_rows::{LoopShared, Row, Seats};

/// Cuts a row into rows of two numbers, in order, behind those that are there. It is cut in halves so many times, and each cut takes one
/// of the spares.
pub(crate) fn cut_in_pairs<C: Origin + Drop>(
    shared: &[LoopShared<C>],
    row: Row<C>,
    times: u32,
    spares: &mut Vec<Vec<Seats<C>>>,
    pairs: &mut Vec<Row<C>>,
)
    requires row { IsRow shared.now row }
    requires count { IsDoubled times row.count }
    requires even { row.first ≡ 2 * vec_len pairs.old }
    requires pairs { ArePairs shared.now pairs.old.items }
    requires room { 2 * vec_len pairs.old + row.count ≤ 2 * vec_capacity pairs.old }
    requires spares { AreSpares (length shared.now) spares.old.items × (row.count ≤ 2 * vec_len spares.old + 2) }
    ensures pairs { ArePairs shared.now pairs.new.items × (2 * vec_len pairs.new ≡ 2 * vec_len pairs.old + row.count) }
    ensures room { vec_capacity pairs.new ≡ vec_capacity pairs.old }
    ensures spares { AreSpares (length shared.now) spares.new.items × (2 * vec_len spares.new + row.count ≡ 2 * vec_len spares.old + 2) }

    // What the row had seen.
    ensures sees { (whole : List (Seats C C.Source)) → RowSeen (length shared.now) whole row.seats.items → (times ≡ 0 → OwnEach (length shared.now) row.seats.items) → RowsSee (length shared.now) whole pairs.old.items → RowsSee (length shared.now) whole pairs.new.items }
{
    if times == 0 {
        pairs.push_reserved(row);
        return;
    }
    let mut row = row;
    let half = row.count / 2;
    let Some(spare) = spares.pop() else {
        unreachable!()
    };
    let other = row.split(shared, half, spare);
    cut_in_pairs(shared, row, times - 1, spares, pairs);
    cut_in_pairs(shared, other, times - 1, spares, pairs);
}

/// Joins rows of two numbers, the last one first.
pub(crate) fn join_pairs<C: Origin + Drop>(
    shared: &[LoopShared<C>],
    mut pairs: Vec<Row<C>>,
) -> Row<C>
    requires pairs { ArePairs shared.now pairs.items }
    requires some { 0 < vec_len pairs }
    ensures row { IsRow shared.now result × HasNumbers 0 (2 * vec_len pairs) result }
    ensures sees { (whole : List (Seats C C.Source)) → RowsSee (length shared.now) whole pairs.items → RowSees (length shared.now) whole result.seats.items }
{
    let Some(mut row) = pairs.pop() else {
        unreachable!()
    };
    while let Some(pair) = pairs.pop() {
        let mut pair = pair;
        pair.join(shared, row);
        row = pair;
    }
    row
}
