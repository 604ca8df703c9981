//! A home that takes the list and begins what it took, by its next step.
ghost use Rattle.std.specs.Prelude.{◌≡◌, ◌<◌, ◌≤◌, ◌+◌, length, None, Some, true, [], ◌∷◌};
ghost use Rattle.co_schedule.specs.Calls.{are_within};
ghost use Rattle.co_schedule.specs.Known.{IsHomes};

use crate::orders::wake::Sleeper;
use crate::plays::Inner;
use crate::runs::CoRun;
use crate::table::CoTable;

/// It has begun all that it took.
#[derive(Drop)]
pub(crate) struct ToSwap<'a> {
    pub(crate) table: &'a CoTable<Sleeper>,
    pub(crate) inner: Inner<Sleeper>,
    pub(crate) run: CoRun,
    ghost of: { (inner.table_id ≡ table.now.table) × (inner.me.0.known.coroutines ≡ table.now.coroutines) × (inner.me.0.origin ≡ Some table.now.origin) },
    ghost number: { IsHomes inner.me.0.known },
    ghost slots: { inner.me.1 ≡ [] },
    ghost room: { table.now.coroutines ≤ run.room },
    ghost free: { (inner.me.0.known.stage.word ≡ 0) × (inner.me.0.known.stage.hand ≡ None) },
    ghost run_is: { (inner.me.0.known.stage.run ≡ []) × (run.cos ≡ []) },
}

/// The list was taken, and is walked at this coroutine.
#[derive(Drop)]
pub(crate) struct ToLoadNext<'a> {
    pub(crate) table: &'a CoTable<Sleeper>,
    pub(crate) inner: Inner<Sleeper>,
    pub(crate) run: CoRun,
    pub(crate) co: u32,
    ghost of: { (inner.table_id ≡ table.now.table) × (inner.me.0.known.coroutines ≡ table.now.coroutines) × (inner.me.0.origin ≡ Some table.now.origin) },
    ghost number: { IsHomes inner.me.0.known },
    ghost slots: { inner.me.1 ≡ [] },
    ghost room: { table.now.coroutines ≤ run.room },
    ghost below: { co < table.now.coroutines },
    ghost free: { (inner.me.0.known.stage.word ≡ co + 1) × (inner.me.0.known.stage.hand ≡ None) },
    ghost run_is: { inner.me.0.known.stage.run ≡ run.cos },
    ghost more: { length run.cos < length inner.me.0.known.stage.taken },
    ghost few: { length inner.me.0.known.stage.taken ≤ table.now.coroutines },
    ghost within: { are_within table.now.coroutines run.cos ≡ true },
}

/// This coroutine is the next to begin.
#[derive(Drop)]
pub(crate) struct ToLoadMark<'a> {
    pub(crate) table: &'a CoTable<Sleeper>,
    pub(crate) inner: Inner<Sleeper>,
    pub(crate) run: CoRun,
    pub(crate) co: u32,
    ghost of: { (inner.table_id ≡ table.now.table) × (inner.me.0.known.coroutines ≡ table.now.coroutines) × (inner.me.0.origin ≡ Some table.now.origin) },
    ghost number: { IsHomes inner.me.0.known },
    ghost slots: { inner.me.1 ≡ [] },
    ghost room: { table.now.coroutines ≤ run.room },
    ghost below: { co < table.now.coroutines },
    ghost free: { (inner.me.0.known.stage.word ≡ 0) × (inner.me.0.known.stage.hand ≡ None) },
    ghost run_is: { inner.me.0.known.stage.run ≡ co ∷ run.cos },
    ghost within: { are_within table.now.coroutines run.cos ≡ true },
}

/// Its wake is out.
#[derive(Drop)]
pub(crate) struct ToClearMark<'a> {
    pub(crate) table: &'a CoTable<Sleeper>,
    pub(crate) inner: Inner<Sleeper>,
    pub(crate) run: CoRun,
    pub(crate) co: u32,
    ghost of: { (inner.table_id ≡ table.now.table) × (inner.me.0.known.coroutines ≡ table.now.coroutines) × (inner.me.0.origin ≡ Some table.now.origin) },
    ghost number: { IsHomes inner.me.0.known },
    ghost slots: { inner.me.1 ≡ (co, None) ∷ [] },
    ghost room: { table.now.coroutines ≤ run.room },
    ghost below: { co < table.now.coroutines },
    ghost free: { (inner.me.0.known.stage.word ≡ 0) × (inner.me.0.known.stage.hand ≡ Some co) },
    ghost run_is: { inner.me.0.known.stage.run ≡ co ∷ run.cos },
    ghost within: { are_within table.now.coroutines run.cos ≡ true },
}

/// What home does next.
#[derive(Drop)]
pub(crate) enum Homing<'a> {
    Swaps(ToSwap<'a>),
    LoadsNext(ToLoadNext<'a>),
    LoadsMark(ToLoadMark<'a>),
    ClearsMark(ToClearMark<'a>),
}

/// The next of the run, if there is one.
fn pop<'a>(table: &'a CoTable<Sleeper>, inner: Inner<Sleeper>, run: CoRun) -> Homing<'a>
    requires of { (inner.table_id ≡ table.now.table) × (inner.me.0.known.coroutines ≡ table.now.coroutines) × (inner.me.0.origin ≡ Some table.now.origin) }
    requires number { IsHomes inner.me.0.known }
    requires slots { inner.me.1 ≡ [] }
    requires room { table.now.coroutines ≤ run.room }
    requires free { (inner.me.0.known.stage.word ≡ 0) × (inner.me.0.known.stage.hand ≡ None) }
    requires run { inner.me.0.known.stage.run ≡ run.cos }
    requires within { are_within table.now.coroutines run.cos ≡ true }
{
    let mut run = run;
    match run.pop() {
        Some(co) => Homing::LoadsMark(ToLoadMark {
            table,
            inner,
            run,
            co,
        }),
        None => Homing::Swaps(ToSwap { table, inner, run }),
    }
}

impl<'a> ToSwap<'a> {
    fn step(self) -> Homing<'a> {
        let ToSwap {
            table,
            mut inner,
            run,
        } = self;
        let word = table.swap_head(&mut inner);
        if word == 0 {
            return pop(table, inner, run);
        }
        let co = table.co_of(word);
        Homing::LoadsNext(ToLoadNext {
            table,
            inner,
            run,
            co,
        })
    }
}

impl<'a> ToLoadNext<'a> {
    fn step(self) -> Homing<'a> {
        let ToLoadNext {
            table,
            mut inner,
            mut run,
            co,
        } = self;
        run.push(co);
        let word = table.load_next(&mut inner, co);
        if word == 0 {
            return pop(table, inner, run);
        }
        let co = table.co_of(word);
        Homing::LoadsNext(ToLoadNext {
            table,
            inner,
            run,
            co,
        })
    }
}

impl<'a> ToLoadMark<'a> {
    fn step(self) -> Homing<'a> {
        let ToLoadMark {
            table,
            mut inner,
            run,
            co,
        } = self;
        // The orders are judged by who is entered, and not by what is found here.
        table.load_mark(&mut inner, co);
        let _parcel = table.table.shared.exchange(&mut inner, co as usize, None);
        Homing::ClearsMark(ToClearMark {
            table,
            inner,
            run,
            co,
        })
    }
}

impl<'a> ToClearMark<'a> {
    fn step(self) -> Homing<'a> {
        let ToClearMark {
            table,
            mut inner,
            run,
            co,
        } = self;
        table.clear_mark(&mut inner, co);
        pop(table, inner, run)
    }
}

impl<'a> Homing<'a> {
    pub(crate) fn step(self) -> Homing<'a> {
        match self {
            Homing::Swaps(at) => at.step(),
            Homing::LoadsNext(at) => at.step(),
            Homing::LoadsMark(at) => at.step(),
            Homing::ClearsMark(at) => at.step(),
        }
    }

    /// It has begun all that it took.
    pub(crate) fn rests(&self) -> bool {
        matches!(self, Homing::Swaps(_))
    }

    /// The coroutine that it enters with its next step.
    pub(crate) fn enters(&self) -> Option<u32> {
        match self {
            Homing::ClearsMark(at) => Some(at.co),
            _ => None,
        }
    }
}
