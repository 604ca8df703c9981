//! A new table, with the home's seat and one that has all other numbers.
ghost use Rattle.std.specs.Prelude.{◌≡◌, ◌≤◌, ◌+◌, Some, None, [], IfOk, MatchResult, MatchOption};
ghost use Rattle.aio_model.specs.Loop.History.{Sizes};
ghost use Rattle.aio_core.specs.Words.{word_count};
ghost use Rattle.aio_core.specs.Known.{first_known};
ghost use Rattle.aio_core.specs.Calls.{IsSeatOf, first_seat, first_home};
ghost use Rattle.aio_core.specs.Opening.{AreFirst, IsNew};
ghost use Rattle.aio_core.specs.Refusals.{excess_of, IsRefusal};

use crate::home::Home;
use crate::job::Job;
use crate::plays::{CutHome, LoopRule};
use crate::refusal::BuildRefusal;
use crate::seat::Seat;
use crate::sizes::Counts;
use crate::table::LoopTable;
use crate::view::View;
use crate::words::{FREE, flags_word};
use atomic_table::Table;
use std::alloc::{AllocError, Global};

/// Handles and lots together.
const MOST_INDICES: u64 = 4096;

const MOST_EVENTS: u32 = 64;

/// A table, the seat of its home thread, and one that owns all other numbers.
#[derive(Drop)]
pub struct Built<J: Job> {
    pub table: LoopTable<J>,
    pub home: Home<J>,
    pub seat: Seat<J>,
}

/// The number that is too large.
fn excess(counts: Counts) -> Option<u64>
    ensures { result ≡ excess_of counts }
{
    let indices = u64::from(counts.handles) + u64::from(counts.lots);
    if indices > MOST_INDICES {
        Some(indices)
    } else if counts.events > MOST_EVENTS {
        Some(u64::from(counts.events))
    } else {
        None
    }
}

/// The words of a new table: no flag is set, each lot is free, and nothing was pushed.
fn first_words(alloc: Global, counts: Counts) -> Result<Vec<u64>, AllocError>
    requires { counts.handles + counts.lots ≤ 4096 }
    ensures { IfOk result (λ words. AreFirst counts words.items) }
{
    let indices = (counts.handles + counts.lots) as usize;
    let mut words = vec![in alloc; 0; 68 + 2 * indices]?;
    for lot in counts.handles..counts.handles + counts.lots {
        words[flags_word(lot)] = FREE;
    }
    Ok(words)
}

/// Cuts the home's number off from the first seat.
fn opened<J: Job>(
    table: Table<Option<J>, View, Counts, LoopRule, Global>,
    mut seat: atomic_table::Seat<Option<J>, View>,
    counts: Counts,
) -> Built<J>
    requires key { table.shared.key ≡ counts }
    requires counts { (table.shared.table_id.words ≡ word_count counts) × (table.shared.table_id.slots ≡ counts.lots) }
    requires few { (counts.handles + counts.lots ≤ 4096) × (counts.events ≤ 64) }
    requires seat { (seat.table_id ≡ table.shared.table_id) × (seat.me ≡ (first_known counts, [])) }
    ensures { IsNew counts result.table result.home.seat result.seat }
{
    let home = table.shared.split_seat::<CutHome>(&mut seat);
    Built {
        table: LoopTable::of(table, counts),
        home: Home::of(Seat::of(home, 64, 1)),
        seat: Seat::of(seat, 0, 64),
    }
}

impl<J: Job> LoopTable<J> {
    /// A table for so many handles, lots and events: no flag is set, no event is set, and nothing was done.
    pub fn build(
        alloc: Global,
        handles: u32,
        lots: u32,
        events: u32,
    ) -> Result<Built<J>, BuildRefusal>
        ensures built { IfOk result (λ built. IsNew (record { handles = handles; lots = lots; events = events }) built.table built.home.seat built.seat) }
        ensures refused { MatchResult result (λ _. excess_of (record { handles = handles; lots = lots; events = events }) ≡ None) (λ refusal. IsRefusal (record { handles = handles; lots = lots; events = events }) refusal) }
    {
        let counts = Counts {
            handles,
            lots,
            events,
        };
        if let Some(number) = excess(counts) {
            return Err(BuildRefusal::TooMany(number));
        }
        let Ok(words) = first_words(alloc, counts) else {
            return Err(BuildRefusal::NoMemory);
        };
        let Ok((table, seat)) = Table::vacant(alloc, &words, lots as usize, &counts) else {
            return Err(BuildRefusal::NoMemory);
        };
        Ok(opened(table, seat, counts))
    }
}
