//! A seat that schedules a coroutine, by its next step. The coroutine sleeps elsewhere: no state goes with it.
ghost use Rattle.std.specs.Prelude.{◌≡◌, ◌<◌, ◌+◌, None, Some, false, [], ◌∷◌};
ghost use Rattle.aio_model.specs.declared.coroutines.causes.Cause.TheVariants.{Wake};
ghost use Rattle.co_schedule.specs.Known.{AtRest, Marked, HeadLoaded, Linked};

use crate::orders::wake::Sleeper;
use crate::parcel::Parcel;
use crate::plays::Inner;
use crate::table::CoTable;
use aio_model::Cause;

#[derive(Drop)]
pub(crate) struct ToMark<'a> {
    pub(crate) table: &'a CoTable<Sleeper>,
    pub(crate) inner: Inner<Sleeper>,
    pub(crate) co: u32,
    pub(crate) own: u64,
    ghost of: { inner.table_id ≡ table.now.table },
    ghost numbers: { (0 < inner.me.0.known.count) × (own ≡ inner.me.0.known.first + 1) },
    ghost seat: { inner.me.0.known.first < 64 },
    ghost below: { co < table.now.coroutines },
    ghost phase: { inner.me.0.known.phase ≡ AtRest },
    ghost slots: { inner.me.1 ≡ [] },
}

/// The coroutine is marked, and its wake is in its slot.
#[derive(Drop)]
pub(crate) struct ToLoadHead<'a> {
    pub(crate) table: &'a CoTable<Sleeper>,
    pub(crate) inner: Inner<Sleeper>,
    pub(crate) co: u32,
    ghost of: { inner.table_id ≡ table.now.table },
    ghost numbers: { 0 < inner.me.0.known.count },
    ghost below: { co < table.now.coroutines },
    ghost phase: { inner.me.0.known.phase ≡ Marked co false },
    ghost slots: { inner.me.1 ≡ (co, Some (record { cause = Wake; state = None })) ∷ [] },
}

#[derive(Drop)]
pub(crate) struct ToStoreNext<'a> {
    pub(crate) table: &'a CoTable<Sleeper>,
    pub(crate) inner: Inner<Sleeper>,
    pub(crate) co: u32,
    pub(crate) head: u64,
    ghost of: { inner.table_id ≡ table.now.table },
    ghost numbers: { 0 < inner.me.0.known.count },
    ghost below: { co < table.now.coroutines },
    ghost phase: { inner.me.0.known.phase ≡ HeadLoaded co false head },
    ghost slots: { inner.me.1 ≡ (co, Some (record { cause = Wake; state = None })) ∷ [] },
}

#[derive(Drop)]
pub(crate) struct ToCompareHead<'a> {
    pub(crate) table: &'a CoTable<Sleeper>,
    pub(crate) inner: Inner<Sleeper>,
    pub(crate) co: u32,
    pub(crate) head: u64,
    ghost of: { inner.table_id ≡ table.now.table },
    ghost numbers: { 0 < inner.me.0.known.count },
    ghost below: { co < table.now.coroutines },
    ghost phase: { inner.me.0.known.phase ≡ Linked co false head },
    ghost slots: { inner.me.1 ≡ (co, Some (record { cause = Wake; state = None })) ∷ [] },
}

/// What a schedule does next, and how it ends.
#[derive(Drop)]
pub(crate) enum Scheduler<'a> {
    Marks(ToMark<'a>),
    LoadsHead(ToLoadHead<'a>),
    StoresNext(ToStoreNext<'a>),
    ComparesHead(ToCompareHead<'a>),
    Pushed,
    /// The coroutine had this mark.
    Refused(u64),
}

impl<'a> ToMark<'a> {
    fn step(self) -> Scheduler<'a> {
        let ToMark {
            table,
            mut inner,
            co,
            own,
        } = self;
        let parcel = Some(Parcel {
            cause: Cause::Wake,
            state: None,
        });
        let found = table.compare_mark(&mut inner, co, own, &parcel);
        if found != 0 {
            return Scheduler::Refused(found);
        }
        // Whoever has set the mark finds the slot empty.
        let _empty = table.table.shared.exchange(&mut inner, co as usize, parcel);
        Scheduler::LoadsHead(ToLoadHead { table, inner, co })
    }
}

impl<'a> ToLoadHead<'a> {
    fn step(self) -> Scheduler<'a> {
        let ToLoadHead {
            table,
            mut inner,
            co,
        } = self;
        let head = table.load_head(&mut inner, co, false);
        Scheduler::StoresNext(ToStoreNext {
            table,
            inner,
            co,
            head,
        })
    }
}

impl<'a> ToStoreNext<'a> {
    fn step(self) -> Scheduler<'a> {
        let ToStoreNext {
            table,
            mut inner,
            co,
            head,
        } = self;
        table.store_next(&mut inner, co, false, head);
        Scheduler::ComparesHead(ToCompareHead {
            table,
            inner,
            co,
            head,
        })
    }
}

impl<'a> ToCompareHead<'a> {
    fn step(self) -> Scheduler<'a> {
        let ToCompareHead {
            table,
            mut inner,
            co,
            head,
        } = self;
        if table.compare_head(&mut inner, co, false, head) == head {
            return Scheduler::Pushed;
        }
        Scheduler::LoadsHead(ToLoadHead { table, inner, co })
    }
}

impl<'a> Scheduler<'a> {
    /// The next step, if there is one left.
    pub(crate) fn step(self) -> Scheduler<'a> {
        match self {
            Scheduler::Marks(at) => at.step(),
            Scheduler::LoadsHead(at) => at.step(),
            Scheduler::StoresNext(at) => at.step(),
            Scheduler::ComparesHead(at) => at.step(),
            ended => ended,
        }
    }

    pub(crate) fn has_ended(&self) -> bool {
        matches!(self, Scheduler::Pushed | Scheduler::Refused(_))
    }
}
