//! The table itself. Its calls stand in the files beside this one.
ghost use Rattle.std.specs.Prelude.{◌≡◌, ◌≤◌, ◌+◌};
ghost use Rattle.aio_core.specs.Words.{index_count, word_count};

use crate::job::Job;
use crate::plays::LoopRule;
use crate::sizes::Counts;
use crate::view::View;
use atomic_table::Table;
use std::alloc::Global;
use std::marker::Model;

/// The table that the threads of a loop share. Contracts see which table it is, and its sizes.
#[derive(Drop)]
pub struct LoopTable<J: Job> {
    pub(crate) table: Table<Option<J>, View, Counts, LoopRule, Global>,
    pub(crate) counts: Counts,
}

impl<J: Job> Model for LoopTable<J> {
    ghost use Rattle.std.specs.Prelude.{◌≡◌, ◌≤◌, ◌+◌};
    ghost use Rattle.aio_core.specs.Words.{word_count};
    ghost use Rattle.aio_core.specs.Calls.{TableState};

    ghost Value = { TableState };

    ghost view = { λ t. record { table = t.table.shared.table_id; sizes = t.table.shared.key } };

    ghost invariant = { λ t. (t.counts ≡ t.table.shared.key) × (t.table.shared.table_id.words ≡ word_count t.table.shared.key) × (t.table.shared.table_id.slots ≡ t.table.shared.key.lots) × (t.table.shared.key.handles + t.table.shared.key.lots ≤ 4096) × (t.table.shared.key.events ≤ 64) };
}

impl<J: Job> LoopTable<J> {
    pub(crate) fn of(
        table: Table<Option<J>, View, Counts, LoopRule, Global>,
        counts: Counts,
    ) -> LoopTable<J>
        requires key { table.shared.key ≡ counts }
        requires counts { (table.shared.table_id.words ≡ word_count counts) × (table.shared.table_id.slots ≡ counts.lots) }
        requires few { (counts.handles + counts.lots ≤ 4096) × (counts.events ≤ 64) }
        ensures { (result.table ≡ table.shared.table_id) × (result.sizes ≡ counts) }
    {
        LoopTable { table, counts }
    }

    /// How many handles it has; the indices below are handles.
    pub fn handles(&self) -> u32
        ensures { result ≡ self.now.sizes.handles }
    {
        self.counts.handles
    }

    /// How many handles and lots it has together.
    pub fn indices(&self) -> u32
        ensures value { result ≡ index_count self.now.sizes }
        ensures few { result ≤ 4096 }
    {
        self.counts.handles + self.counts.lots
    }

    /// How many events it has.
    pub fn events(&self) -> u32
        ensures value { result ≡ self.now.sizes.events }
        ensures few { result ≤ 64 }
    {
        self.counts.events
    }
}
