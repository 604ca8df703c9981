//! The callbacks of a loop script: each does the actions of its list, up to the next nest, and is entered again behind it.
ghost use Rattle.std.specs.Prelude.{◌≡◌, Some, ◌⊎◌, ◌+◌, ◌<◌, ◌≤◌, ◌^◌, ◌∷◌, ◌++◌, [], ◌||◌, ℕ, List, None, min, length, map, option_map, true, false, if◌then◌else◌, MatchOption, IfOk};
ghost use Rattle.std.specs.List.{AllByRecursion};
ghost use Rattle.aio_model.specs.declared.loops.ran_lists.Called.{Called};
ghost use Rattle.aio_model.specs.Scripts.LoopActs.{acts_called, waiting_after, before_nest};
ghost use Rattle.aio_model.specs.Scripts.LoopReplies.{called_by};
ghost use Rattle.bell_loop.specs.Actions.{AreWithin, some_asks};
ghost use Rattle.bell_loop.specs.Entering.{acts_at, CanRun, NamesCalled, FindsTodo};

use crate::acting::{act_until_nest, asks};
use crate::stack::Stack;
use crate::tag::Tag;
use aio_bh::{Call, Runner, Turn};
use aio_core::{LoopTable, Seat};
use aio_model::{ActKind, Called, NoMemory, RanList};
use std::alloc::Global;
use std::sync::Wait;

/// The callbacks of a loop script, and what a poll has done with them so far.
#[derive(Drop)]
pub(crate) struct Callbacks<'a, R: Wait> {
    rt: &'a R,
    /// The actions of each handle's callback.
    pub(crate) lists: &'a [Vec<ActKind>],
    pub(crate) waiting: Stack<'a>,
    pub(crate) ran: RanList,
    /// How many were called besides.
    pub(crate) more: u64,
    /// Whether some action notified the loop.
    pub(crate) rang: bool,
}

/// How a callback that was called is named.
fn name_of(bh: u32, job: Option<Tag>) -> Called
    ensures { result ≡ called_by bh (option_map (λ t. t.tag) job) }
{
    match job {
        None => Called::Handle(bh),
        Some(tag) => Called::Once(tag.tag),
    }
}

/// Empties a list, and writes nothing where it is empty.
fn empty(ran: &mut RanList)
    ensures { ran.new ≡ [] }
{
    if !ran.as_slice().is_empty() {
        *ran = RanList::build();
    }
}

/// The actions of a handle's callback. One for which there is no list does nothing.
fn listed<'a>(lists: &'a [Vec<ActKind>], bh: u32) -> &'a [ActKind]
    ensures { result.now ≡ acts_at (map (λ l. l.items) lists.now) bh }
{
    match lists.get(bh as usize) {
        Some(list) => list.as_slice(),
        None => &[],
    }
}

/// What is to be done from a first entry on: by a one-shot nothing.
fn first_todo<'a>(lists: &'a [Vec<ActKind>], bh: u32, job: Option<Tag>) -> &'a [ActKind]
    ensures { result.now ≡ acts_called (acts_at (map (λ l. l.items) lists.now)) bh (option_map (λ t. t.tag) job) }
{
    match job {
        None => listed(lists, bh),
        Some(_) => &[],
    }
}

impl<'a, R: Wait> Callbacks<'a, R> {
    pub(crate) fn build(
        rt: &'a R,
        alloc: Global,
        lists: &'a [Vec<ActKind>],
    ) -> Result<Callbacks<'a, R>, NoMemory>
        ensures lists { IfOk result (λ built. built.lists.now ≡ lists.now) }
        ensures waiting { IfOk result (λ built. built.waiting ≡ []) }
        ensures rang { IfOk result (λ built. built.rang ≡ false) }
    {
        Ok(Callbacks {
            rt,
            lists,
            waiting: Stack::build(alloc)?,
            ran: RanList::build(),
            more: 0,
            rang: false,
        })
    }

    /// Who was called before is forgotten.
    pub(crate) fn begin_poll(&mut self)
        ensures names { NamesCalled self.new.ran self.new.more [] }
        ensures rest { self.new ≡ record self.old { ran = self.new.ran; more = self.new.more } }
    {
        empty(&mut self.ran);
        self.more = 0;
    }

    /// From now on no callback does anything.
    pub(crate) fn forget_lists(&mut self)
        ensures none { self.new.lists.now ≡ [] }
        ensures rest { self.new ≡ record self.old { lists = self.new.lists } }
    {
        let lists = self.lists;
        self.lists = &lists[..0];
    }

    /// One more was called.
    fn note(&mut self, called: Called)
        ensures names { (calls : List Called) → NamesCalled self.old.ran self.old.more calls → NamesCalled self.new.ran self.new.more (calls ++ called ∷ []) }
        ensures rest { self.new ≡ record self.old { ran = self.new.ran; more = self.new.more } }
    {
        if self.ran.is_full() {
            self.more = self.more.saturating_add(1);
        } else {
            self.ran.push(called);
        }
    }

    /// The first entry into a callback, or a further one.
    fn note_first(&mut self, first: bool, called: Called)
        ensures names { (calls : List Called) → NamesCalled self.old.ran self.old.more calls → NamesCalled self.new.ran self.new.more (if first then calls ++ called ∷ [] else calls) }
        ensures rest { self.new ≡ record self.old { ran = self.new.ran; more = self.new.more } }
    {
        if first {
            self.note(called);
        }
    }

    /// What was left to do at the last entry that nested.
    fn take_up(&mut self) -> &'a [ActKind]
        ensures finds { 0 < length self.old.waiting → self.old.waiting ≡ result.now ∷ self.new.waiting }
        ensures within { (handles : ℕ) → AllByRecursion (AreWithin handles) self.old.waiting → AreWithin handles result.now × AllByRecursion (AreWithin handles) self.new.waiting }
        ensures rest { self.new ≡ record self.old { waiting = self.new.waiting } }
    {
        match self.waiting.pop() {
            Some(todo) => todo,
            None => &[],
        }
    }

    /// What is to be done at an entry.
    fn todo(&mut self, bh: u32, job: Option<Tag>, first: bool) -> &'a [ActKind]
        ensures finds { FindsTodo (acts_at (map (λ l. l.items) self.old.lists.now)) first bh (option_map (λ t. t.tag) job) result.now self.old.waiting self.new.waiting }
        ensures within { (handles : ℕ) → CanRun handles (map (λ l. l.items) self.old.lists.now) self.old.waiting → AreWithin handles result.now × AllByRecursion (AreWithin handles) self.new.waiting }
        ensures rest { self.new ≡ record self.old { waiting = self.new.waiting } }
    {
        if first {
            first_todo(self.lists, bh, job)
        } else {
            self.take_up()
        }
    }

    /// What is behind a nest waits, where a nested poll comes.
    fn wait_behind(&mut self, later: &'a [ActKind], nests: u32)
        ensures waiting { (nests ≡ 0) ⊎ (length self.old.waiting < 7) → self.new.waiting ≡ waiting_after (Some later.now) nests self.old.waiting }
        ensures within { (handles : ℕ) → AreWithin handles later.now → AllByRecursion (AreWithin handles) self.old.waiting → AllByRecursion (AreWithin handles) self.new.waiting }
        ensures rest { self.new ≡ record self.old { waiting = self.new.waiting } }
    {
        if nests > 0 && self.waiting.len() < 7 {
            self.waiting.push(later);
        }
    }
}

impl<'a, R: Wait> Callbacks<'a, R> {
    /// Notes an entry, and finds what is to be done at it.
    fn begin(&mut self, bh: u32, job: Option<Tag>, first: bool) -> &'a [ActKind]
        ensures names { (calls : List Called) → NamesCalled self.old.ran self.old.more calls → NamesCalled self.new.ran self.new.more (if first then calls ++ called_by bh (option_map (λ t. t.tag) job) ∷ [] else calls) }
        ensures finds { FindsTodo (acts_at (map (λ l. l.items) self.old.lists.now)) first bh (option_map (λ t. t.tag) job) result.now self.old.waiting self.new.waiting }
        ensures within { (handles : ℕ) → CanRun handles (map (λ l. l.items) self.old.lists.now) self.old.waiting → AreWithin handles result.now × AllByRecursion (AreWithin handles) self.new.waiting }
        ensures rang { self.new.rang ≡ (self.old.rang || some_asks (before_nest result.now)) }
        ensures rest { self.new ≡ record self.old { ran = self.new.ran; more = self.new.more; waiting = self.new.waiting; rang = self.new.rang } }
    {
        self.note_first(first, name_of(bh, job));
        let todo = self.todo(bh, job, first);
        self.rang = self.rang || asks(todo);
        todo
    }
}

impl<'a, R: Wait> Runner<Tag> for Callbacks<'a, R> {
    ghost use Rattle.std.specs.Prelude.{◌≡◌, map};
    ghost use Rattle.bell_loop.specs.Entering.{acts_at, CanRun, DoesEntry, notes_left};

    ghost can_run = { λ r sizes. CanRun sizes.handles (map (λ l. l.items) r.lists.now) r.waiting };

    ghost does = { λ before entered after. (after.lists ≡ before.lists) × DoesEntry (acts_at (map (λ l. l.items) before.lists.now)) (notes_left before.waiting before.ran before.more before.rang) entered (notes_left after.waiting after.ran after.more after.rang) };

    fn run(&mut self, table: &LoopTable<Tag>, seat: &mut Seat<Tag>, call: &mut Call<Tag>) -> Turn {
        let todo = self.begin(call.bh, call.job, call.first);
        match act_until_nest(self.rt, table, seat, todo) {
            None => Turn::Done,
            Some(later) => {
                self.wait_behind(later, call.nests_left);
                Turn::Nest
            }
        }
    }
}
