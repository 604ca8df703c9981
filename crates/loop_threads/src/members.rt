//! What comes back of the threads is put together again.
ghost use Rattle.std.specs.Prelude.{◌≡◌, ◌<◌, ◌≤◌, ◌+◌, ◌-◌, ◌*◌, length, vec_len, vec_capacity};
ghost use Rattle.loop_rows.specs.Rows.{IsRow, HasNumbers};
ghost use Rattle.co_loop.specs.Working.{CanWork};
ghost use Rattle.loop_threads.specs.Parts.{AllParts, InReverse};
ghost use Rattle.loop_threads.specs.Within.{OwnEach, RowWithin, RowsWithin};
ghost use Rattle.loop_threads.specs.Members.{AreOfParts, MembersEach};

use crate::ending::LoopRun;
use crate::parts::Part;
use aio_bh::LotPass;
use aio_core::Home;
use aio_loop::Side;
use co_loop::CoWork;
use co_schedule::CoHome;
use co_state::Origin;
use loop_rows::{LoopShared, Row};

/// One loop that no thread carries now: its homes, what is home's alone, and its work.
#[derive(Drop)]
pub struct Member<C: Origin, W> {
    pub home: Home<()>,
    pub side: Side,
    pub lot_pass: LotPass,
    pub coroutines: CoHome<C>,
    pub work: W,
}

/// All loops, in order, the row of all numbers, and room for the loops' ends.
#[derive(Drop)]
pub struct Joined<C: Origin, W> {
    pub members: Vec<Member<C, W>>,
    pub row: Row<C>,
    pub ends: Vec<LoopRun<C, W>>,
}

/// Puts all parts together, the last one first, behind the caller's own row.
pub(crate) fn join_all<C: Origin + Drop, K: Drop>(
    shared: &[LoopShared<C>],
    mine: Row<C>,
    mut parts: Vec<Part<C, CoWork<C, K>>>,
    members: Vec<Member<C, CoWork<C, K>>>,
    ends: Vec<LoopRun<C, CoWork<C, K>>>,
) -> Joined<C, CoWork<C, K>>
    requires few { length shared.now ≤ 16 }
    requires mine { IsRow shared.now mine × HasNumbers 0 (64 - 2 * length shared.now) mine }
    requires parts { AllParts (CanWork C.is_of) shared.now parts.items × InReverse parts.items × (vec_len parts ≡ length shared.now) }
    requires room { (vec_len members ≡ 0) × (vec_len parts ≤ vec_capacity members) }
    ensures row { IsRow shared.now result.row × HasNumbers 0 64 result.row }
    ensures own { OwnEach (length shared.now) result.row.seats.items }
    ensures rows { RowsWithin 0 (length shared.now) (length shared.now) parts.items result.row.seats.items }
    ensures mine { 0 < length shared.now → RowWithin (length shared.now) mine.seats.items result.row.seats.items }
    ensures members { (vec_len result.members ≡ vec_len parts) × AreOfParts (vec_len parts) parts.items result.members.items }
    ensures homes { MembersEach (length shared.now) shared.now result.members.items }
    ensures ends { result.ends ≡ ends }
{
    let mut members = members;
    let mut row = mine;
    while let Some(part) = parts.pop() {
        let Part {
            number: _,
            home,
            side,
            lot_pass,
            coroutines,
            row: other,
            work,
            carried: _,
        } = part;
        row.join(shared, other);
        members.push_reserved(Member {
            home,
            side,
            lot_pass,
            coroutines,
            work,
        });
    }
    Joined { members, row, ends }
}
