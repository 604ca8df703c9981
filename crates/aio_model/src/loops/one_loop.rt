//! A loop of one thread, after the bottom halves of QEMU's `util/async.c`, but over plain lists and flags. What the
//! lock-free loop does is compared with it.
ghost use Rattle.std.specs.Prelude.{◌≡◌, ℕ, ◌+◌, ◌-◌, ◌<◌, ◌≤◌, ◌^◌, [], ◌∷◌, ◌++◌, length, reverse, replicate, find, if◌then◌else◌, is_some, not, slice_index_or, IfOk, All, true, false, vec_len};
ghost use Rattle.std.specs.Vec.{vec_capacity};
ghost use Rattle.aio_model.specs.Loop.History.{ToCall, ToCallIdle, ToDelete};
ghost use Rattle.aio_model.specs.Loop.Flags.{are_due, are_urgent};
ghost use Rattle.aio_model.specs.Loop.Log.{first_from, flags_before, enqueued_log, canceled_log, taken_log, taken_count, next_of, dequeued_log, vacant_of, once_log, freed_log, set_log, is_set_in, cleared_log, commit_from, commit_of, committed_log};
ghost use Rattle.aio_model.specs.Loop.State.{blank, half_at, StandsFor, Follows, KeepsUp, IsDone};
ghost use Rattle.aio_model.specs.Loop.Steps.{flags_or, after_dequeue, enqueued_state, begun_state};

use crate::loops::bottom_halves::BottomHalf;
use crate::{Commit, Flags, NoMemory, Why};
use std::alloc::Global;
use std::marker::Model;
use std::mem;

/// A loop of one thread. It takes memory when it is built, and never again.
#[derive(Debug, Drop)]
pub struct OneLoop {
    handles: u32,
    lots: u32,
    halves: Vec<BottomHalf>,
    /// The newest is the last.
    stack: Vec<u32>,
    /// The next is the last.
    out: Vec<u32>,
    events: Vec<bool>,
    rung: bool,
}

impl Model for OneLoop {
    ghost use Rattle.aio_model.specs.Loop.State.{LoopState};

    ghost Value = { LoopState };

    ghost use Rattle.aio_model.specs.Loop.Inside.{state_of, IsSound};

    ghost view = { state_of };

    ghost invariant = { IsSound };
}

const NO_FLAGS: Flags = Flags {
    pending: false,
    scheduled: false,
    deleted: false,
    oneshot: false,
    idle: false,
};

const TO_CALL: Flags = Flags {
    pending: true,
    scheduled: true,
    deleted: false,
    oneshot: false,
    idle: false,
};

const TO_CALL_IDLE: Flags = Flags {
    pending: true,
    scheduled: true,
    deleted: false,
    oneshot: false,
    idle: true,
};

const TO_DELETE: Flags = Flags {
    pending: true,
    scheduled: false,
    deleted: true,
    oneshot: false,
    idle: false,
};

const TO_CALL_ONCE: Flags = Flags {
    pending: true,
    scheduled: true,
    deleted: false,
    oneshot: true,
    idle: false,
};

const BLANK: BottomHalf = BottomHalf {
    flags: NO_FLAGS,
    lives: false,
    dequeued: false,
};

/// How long a loop may sleep over an idle bottom half: 10 ms.
const IDLE_SLEEP: u64 = 10_000_000;

fn joined(add: Flags, was: Flags) -> Flags
    ensures { result ≡ flags_or add was }
{
    Flags {
        pending: add.pending || was.pending,
        scheduled: add.scheduled || was.scheduled,
        deleted: add.deleted || was.deleted,
        oneshot: add.oneshot || was.oneshot,
        idle: add.idle || was.idle,
    }
}

/// What a dequeue leaves of the flags.
fn left_of(was: Flags) -> Flags
    ensures { result ≡ after_dequeue was }
{
    Flags {
        pending: false,
        scheduled: false,
        deleted: was.deleted,
        oneshot: was.oneshot,
        idle: false,
    }
}

fn is_due(flags: Flags) -> bool
    ensures { result ≡ are_due flags }
{
    flags.scheduled && !flags.deleted
}

fn is_urgent(flags: Flags) -> bool
    ensures { result ≡ are_urgent flags }
{
    is_due(flags) && !flags.idle
}

fn blank_halves(alloc: Global, count: usize) -> Result<Vec<BottomHalf>, NoMemory>
    ensures { IfOk result (λ v. v.items ≡ replicate count blank) }
{
    vec![in alloc; BLANK; count].map_err(|_| NoMemory)
}

fn unset_events(alloc: Global, count: usize) -> Result<Vec<bool>, NoMemory>
    ensures { IfOk result (λ v. v.items ≡ replicate count false) }
{
    vec![in alloc; false; count].map_err(|_| NoMemory)
}

fn room_for(alloc: Global, count: usize) -> Result<Vec<u32>, NoMemory>
    ensures empty { IfOk result (λ v. v.items ≡ []) }
    ensures room { IfOk result (λ v. count ≤ vec_capacity v) }
{
    Vec::with_capacity(alloc, count).map_err(|_| NoMemory)
}

fn push_unless(pending: bool, stack: &mut Vec<u32>, index: u32)
    requires { pending ≡ false → vec_len stack.old < vec_capacity stack.old }
    ensures items { stack.new.items ≡ (if pending then stack.old.items else stack.old.items ++ index ∷ []) }
    ensures capacity { vec_capacity stack.new ≡ vec_capacity stack.old }
{
    if !pending {
        stack.push_reserved(index);
    }
}

/// Puts the whole stack behind what is out, and tells how many that were.
fn take_all(stack: &mut Vec<u32>, out: &mut Vec<u32>) -> u32
    requires few { vec_len stack.old < 2 ^ 32 }
    requires room { vec_len stack.old + vec_len out.old ≤ vec_capacity stack.old }
    ensures count { result ≡ vec_len stack.old }
    ensures stack { stack.new.items ≡ [] }
    ensures out { out.new.items ≡ stack.old.items ++ out.old.items }
    ensures stack_capacity { vec_capacity stack.new ≡ vec_capacity out.old }
    ensures out_capacity { vec_capacity stack.old ≤ vec_capacity out.new }
{
    let count = stack.len() as u32;
    stack.append(out).unwrap();
    mem::swap(stack, out);
    count
}

fn first_vacant(halves: &[BottomHalf], from: usize) -> Option<u32>
    requires few { length halves.now < 2 ^ 32 }
    requires within { from ≤ length halves.now }
    ensures { result ≡ first_from (λ i. not (slice_index_or halves.now i blank).lives) from (length halves.now - from) }
{
    for i in from..halves.len() {
        if !halves[i].lives {
            return Some(i as u32);
        }
    }
    None
}

fn first_set(events: &[bool]) -> Option<u32>
    requires { length events.now < 2 ^ 32 }
    ensures { result ≡ first_from (λ e. slice_index_or events.now e false) 0 (length events.now) }
{
    for e in 0..events.len() {
        if events[e] {
            return Some(e as u32);
        }
    }
    None
}

fn any_due(halves: &[BottomHalf]) -> bool
    ensures { result ≡ is_some (first_from (λ i. are_due (slice_index_or halves.now i blank).flags) 0 (length halves.now)) }
{
    for i in 0..halves.len() {
        if is_due(halves[i].flags) {
            return true;
        }
    }
    false
}

/// The newest one of the stack that is urgent. The newest stands last in the stack.
fn newest_urgent(stack: &[u32], halves: &[BottomHalf]) -> Option<u32>
    requires { All (λ i. i < length halves.now) stack.now }
    ensures { result ≡ find (λ i. are_urgent (slice_index_or halves.now i blank).flags) (reverse stack.now) }
{
    let mut newest = None;
    for index in stack {
        if is_urgent(halves[*index as usize].flags) {
            newest = Some(*index);
        }
    }
    newest
}

fn commit_by(urgent: Option<u32>, set: Option<u32>, rung: bool, due: bool) -> Commit
    ensures { result ≡ commit_from urgent set rung due }
{
    if let Some(index) = urgent {
        return Commit::Awake(Why::Urgent(index));
    }
    if let Some(event) = set {
        return Commit::Awake(Why::Event(event));
    }
    if rung {
        return Commit::Awake(Why::Notified);
    }
    Commit::Sleep(if due { Some(IDLE_SLEEP) } else { None })
}

impl OneLoop {
    /// A loop of so many handles, lots and events: indices below `handles` are handles, the next `lots` are lots.
    pub fn build(alloc: Global, handles: u32, lots: u32, events: u32) -> Result<OneLoop, NoMemory>
        requires few { handles + lots ≤ 4096 }
        requires few_events { events ≤ 64 }
        ensures sizes { IfOk result (λ built. built.sizes ≡ record { handles = handles; lots = lots; events = events }) }
        ensures empty { IfOk result (λ built. StandsFor built []) }
    {
        let room = (handles + lots) as usize;
        let halves = blank_halves(alloc, room)?;
        let stack = room_for(alloc, room)?;
        let out = room_for(alloc, room)?;
        let events = unset_events(alloc, events as usize)?;
        Ok(OneLoop {
            handles,
            lots,
            halves,
            stack,
            out,
            events,
            rung: false,
        })
    }

    fn enqueue(&mut self, index: u32, add: Flags) -> Flags
        requires known { index < self.old.sizes.handles + self.old.sizes.lots }
        requires pending { add.pending ≡ true }
        ensures was { result ≡ (half_at index self.old).flags }
        ensures state { self.new ≡ enqueued_state add index self.old }
        ensures in_range { index < length self.old.halves }
    {
        let half = &mut self.halves[index as usize];
        let was = half.flags;
        half.flags = joined(add, was);
        push_unless(was.pending, &mut self.stack, index);
        self.rung = true;
        was
    }

    /// To be called at its next dequeue. The answer is the flags found. The entries may be of any seat.
    pub fn schedule(&mut self, bh: u32) -> Flags
        requires { bh < self.old.sizes.handles }
        ensures follows { (seat : ℕ) → Follows self.old self.new result (flags_before bh) (enqueued_log bh ToCall seat) }
        ensures sizes { self.new.sizes ≡ self.old.sizes }
    {
        self.enqueue(bh, TO_CALL)
    }

    /// As `schedule`, but the loop may sleep for 10 ms before.
    pub fn schedule_idle(&mut self, bh: u32) -> Flags
        requires { bh < self.old.sizes.handles }
        ensures follows { (seat : ℕ) → Follows self.old self.new result (flags_before bh) (enqueued_log bh ToCallIdle seat) }
        ensures sizes { self.new.sizes ≡ self.old.sizes }
    {
        self.enqueue(bh, TO_CALL_IDLE)
    }

    /// Never to be called again.
    pub fn delete(&mut self, bh: u32) -> Flags
        requires { bh < self.old.sizes.handles }
        ensures follows { (seat : ℕ) → Follows self.old self.new result (flags_before bh) (enqueued_log bh ToDelete seat) }
        ensures sizes { self.new.sizes ≡ self.old.sizes }
    {
        self.enqueue(bh, TO_DELETE)
    }

    /// Not to be called at its next dequeue. It stays pending.
    pub fn cancel(&mut self, bh: u32) -> Flags
        requires { bh < self.old.sizes.handles }
        ensures follows { (seat : ℕ) → Follows self.old self.new result (flags_before bh) (canceled_log bh seat) }
        ensures sizes { self.new.sizes ≡ self.old.sizes }
    {
        let half = &mut self.halves[bh as usize];
        let was = half.flags;
        half.flags.scheduled = false;
        was
    }

    /// Puts the whole stack out, behind what is still out, and tells how many that were.
    pub fn take(&mut self) -> u32
        ensures follows { Follows self.old self.new result taken_count taken_log }
        ensures sizes { self.new.sizes ≡ self.old.sizes }
    {
        take_all(&mut self.stack, &mut self.out)
    }

    /// The first that is out, with the flags found; it is to be called where they are scheduled and not deleted.
    /// None exactly where nothing is out.
    pub fn dequeue(&mut self) -> Option<(u32, Flags)>
        ensures follows { Follows self.old self.new result next_of dequeued_log }
        ensures sizes { self.new.sizes ≡ self.old.sizes }
    {
        let index = self.out.pop()?;
        let half = &mut self.halves[index as usize];
        let was = half.flags;
        half.flags = left_of(was);
        half.dequeued = true;
        Some((index, was))
    }

    fn vacant_lot(&self) -> Option<u32>
        ensures vacant { result ≡ first_from (λ i. not (half_at i self.now).lives) self.now.sizes.handles self.now.sizes.lots }
    {
        first_vacant(&self.halves, self.handles as usize)
    }

    /// A life of the lot begins.
    fn begin(&mut self, lot: u32)
        requires { lot < self.old.sizes.handles + self.old.sizes.lots }
        ensures state { self.new ≡ begun_state lot self.old }
        ensures in_range { lot < length self.old.halves }
    {
        let half = &mut self.halves[lot as usize];
        half.lives = true;
    }

    /// Takes the least lot without a life for a one-shot with this tag, and enqueues it. None exactly where every lot
    /// has a life. The entries may be of any seat.
    pub fn once(&mut self, tag: u64) -> Option<u32>
        ensures follows { (seat : ℕ) → Follows self.old self.new result (vacant_of self.old.sizes) (once_log self.old.sizes seat tag) }
        ensures sizes { self.new.sizes ≡ self.old.sizes }
    {
        let lot = self.vacant_lot()?;
        self.begin(lot);
        self.enqueue(lot, TO_CALL_ONCE);
        Some(lot)
    }

    /// Ends the life of a lot after its call.
    pub fn free(&mut self, lot: u32)
        requires lot { self.old.sizes.handles ≤ lot }
        requires known { lot < self.old.sizes.handles + self.old.sizes.lots }
        requires done { IsDone self.old lot }
        ensures follows { KeepsUp self.old self.new (freed_log lot) }
        ensures sizes { self.new.sizes ≡ self.old.sizes }
    {
        self.halves[lot as usize] = BLANK;
    }

    pub fn set(&mut self, event: u32)
        requires { event < self.old.sizes.events }
        ensures follows { (seat : ℕ) → KeepsUp self.old self.new (set_log event seat) }
        ensures sizes { self.new.sizes ≡ self.old.sizes }
    {
        self.events[event as usize] = true;
        self.rung = true;
    }

    /// Whether the event was set.
    pub fn clear(&mut self, event: u32) -> bool
        requires { event < self.old.sizes.events }
        ensures follows { Follows self.old self.new result (is_set_in event) (cleared_log event) }
        ensures sizes { self.new.sizes ≡ self.old.sizes }
    {
        mem::replace(&mut self.events[event as usize], false)
    }

    /// Whether the loop may sleep, with all its events watched and no deadline. What notified it until now is then
    /// forgotten.
    pub fn commit(&mut self) -> Commit
        ensures follows { Follows self.old self.new result (commit_of self.old.sizes) committed_log }
        ensures sizes { self.new.sizes ≡ self.old.sizes }
    {
        let urgent = newest_urgent(&self.stack, &self.halves);
        let set = first_set(&self.events);
        let due = any_due(&self.halves);
        let rung = mem::replace(&mut self.rung, false);
        commit_by(urgent, set, rung, due)
    }
}
