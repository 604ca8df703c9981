//! What home does with lots: it lifts one, moves its job out, dequeues it, and in the end sets it free. The place of the job is
//! home's from the lift to the dequeue.
ghost use Rattle.std.specs.Prelude.{◌≡◌, ◌≤◌, ◌<◌, ◌+◌, [], ◌∷◌, drop, None, Some, MatchOption};
ghost use Rattle.aio_model.specs.Loop.History.{Free};
ghost use Rattle.aio_model.specs.Loop.Lists.{job_of};
ghost use Rattle.aio_model.specs.Loop.Legal.{MayFollow};
ghost use Rattle.aio_core.specs.Known.{Known, IsHomes};
ghost use Rattle.aio_core.specs.Words.{index_count};
ghost use Rattle.aio_core.specs.Standing.{Lifts, Dequeues, Frees};
ghost use Rattle.aio_core.specs.Plays.{Dequeued as dequeued_by};
ghost use Rattle.aio_core.specs.Calls.{IsSeatOf, DequeuesNext, number_in};

use crate::home::Home;
use crate::job::Job;
use crate::plays::{DequeueLot, FreeLot, Inner, LiftLot};
use crate::seat::Seat;
use crate::table::LoopTable;
use crate::words::{FREE, flags_word, next_word};
use aio_model::Flags;

/// An index that was dequeued, the flags that it had, and of a lot the job for which its life began.
#[derive(Debug, Drop)]
pub struct Dequeued<J> {
    pub bh: u32,
    pub flags: Flags,
    pub job: Option<J>,
}

impl<J: Job> LoopTable<J> {
    /// Loads what follows the lot, moves its job out, and clears its flags.
    fn take_lot(&self, inner: &mut Inner<J>, lot: u32) -> (u64, u64, Option<J>)
        requires table { inner.old.table_id ≡ self.now.table }
        requires numbers { IsHomes inner.old.me.0 }
        requires sizes { inner.old.me.0.sizes ≡ self.now.sizes }
        requires lot { lot < self.now.sizes.lots }
        requires first { inner.old.me.0.stage.slices ≡ (self.now.sizes.handles + lot + 1) ∷ drop 1 inner.old.me.0.stage.slices }
        requires free { inner.old.me.0.stage.hand ≡ None }
        requires places { inner.old.me.1 ≡ [] }
        ensures seat { (inner.new.table_id ≡ inner.old.table_id) × (inner.new.id ≡ inner.old.id) × (inner.new.me.1 ≡ []) }
        ensures told { (x : J) × (lifted : Known) × (result.2 ≡ Some x) × Lifts (self.now.sizes.handles + lot) result.0 (Some (J.number_of x)) (drop 1 inner.old.me.0.stage.slices) inner.old.me.0 lifted × dequeued_by (self.now.sizes.handles + lot) result.1 lifted inner.new.me.0 × (job_of (self.now.sizes.handles + lot) inner.new.me.0.seen ≡ Some (J.number_of x)) }
    {
        let bh = self.index_of_lot(lot);
        let next = self.table.shared.load::<LiftLot>(inner, next_word(bh));
        let job = self.table.shared.exchange(inner, lot as usize, None);
        let kept = !(Flags::PENDING | Flags::SCHEDULED | Flags::IDLE);
        let flags = self
            .table
            .shared
            .fetch_and::<DequeueLot>(inner, flags_word(bh), kept);
        (next, flags, job)
    }
}

impl<J: Job> LoopTable<J> {
    fn take_job(&self, seat: &mut Seat<J>, bh: u32) -> (u64, u64, Option<J>)
        requires seat { IsSeatOf self.now seat.old }
        requires number { IsHomes seat.old.known }
        requires lot { (self.now.sizes.handles ≤ bh) × (bh < index_count self.now.sizes) }
        requires first { seat.old.known.stage.slices ≡ (bh + 1) ∷ drop 1 seat.old.known.stage.slices }
        requires free { seat.old.known.stage.hand ≡ None }
        ensures seat { IsSeatOf self.now seat.new }
        ensures told { (x : J) × (lifted : Known) × (result.2 ≡ Some x) × Lifts bh result.0 (Some (J.number_of x)) (drop 1 seat.old.known.stage.slices) seat.old.known lifted × dequeued_by bh result.1 lifted seat.new.known × (job_of bh seat.new.known.seen ≡ Some (J.number_of x)) }
    {
        let lot = self.lot_of(bh);
        self.take_lot(&mut seat.inner, lot)
    }

    /// Dequeues the first of the first slice, a lot, by an atomic load of what follows it and the clearing of its flags, and
    /// moves its job out in between.
    #[inline(always)]
    pub fn dequeue_lot(&self, home: &mut Home<J>, bh: u32) -> Dequeued<J>
        requires seat { IsSeatOf self.now home.old.seat }
        requires free { home.old.seat.known.stage.hand ≡ None }
        requires lot { (self.now.sizes.handles ≤ bh) × (bh < index_count self.now.sizes) }
        requires first { home.old.seat.known.stage.slices ≡ (bh + 1) ∷ drop 1 home.old.seat.known.stage.slices }
        ensures seat { IsSeatOf self.now home.new.seat }
        ensures index { result.bh ≡ bh }
        ensures steps { DequeuesNext bh result.flags (number_in J.number_of result.job) home.old.seat.known home.new.seat.known }
    {
        let (next, found, job) = self.take_job(&mut home.seat, bh);
        home.slices.lift(next);
        Dequeued {
            bh,
            flags: Flags::from_word(found),
            job,
        }
    }

    /// Dequeues the first of the first slice, a handle.
    #[inline(always)]
    fn dequeue_handle(&self, home: &mut Home<J>, bh: u32) -> Dequeued<J>
        requires seat { IsSeatOf self.now home.old.seat }
        requires free { home.old.seat.known.stage.hand ≡ None }
        requires handle { bh < self.now.sizes.handles }
        requires first { home.old.seat.known.stage.slices ≡ (bh + 1) ∷ drop 1 home.old.seat.known.stage.slices }
        ensures seat { IsSeatOf self.now home.new.seat }
        ensures index { result.bh ≡ bh }
        ensures steps { DequeuesNext bh result.flags (number_in J.number_of result.job) home.old.seat.known home.new.seat.known }
    {
        let hand = self.lift(home, bh);
        Dequeued {
            bh,
            flags: self.dequeue(home, hand),
            job: None,
        }
    }

    /// Dequeues the first of the first slice: an atomic load of what follows it, and the clearing of its flags. A lot's job is
    /// moved out in between. None where no slice is left.
    #[inline(always)]
    pub fn dequeue_next(&self, home: &mut Home<J>) -> Option<Dequeued<J>>
        requires seat { IsSeatOf self.now home.old.seat }
        requires free { home.old.seat.known.stage.hand ≡ None }
        ensures seat { IsSeatOf self.now home.new.seat }
        ensures steps { MatchOption result ((home.old.seat.known.stage.slices ≡ []) × (home.new ≡ home.old)) (λ next. DequeuesNext next.bh next.flags (number_in J.number_of next.job) home.old.seat.known home.new.seat.known) }
    {
        let bh = self.next(home)?;
        if bh < self.handles() {
            Some(self.dequeue_handle(home, bh))
        } else {
            Some(self.dequeue_lot(home, bh))
        }
    }

    fn store_free(&self, seat: &mut Seat<J>, bh: u32)
        requires seat { IsSeatOf self.now seat.old }
        requires number { IsHomes seat.old.known }
        requires done { MayFollow self.now.sizes (Free bh) seat.old.known.seen }
        ensures seat { IsSeatOf self.now seat.new }
        ensures step { Frees bh seat.old.known seat.new.known }
    {
        self.table
            .shared
            .store::<FreeLot>(&mut seat.inner, flags_word(bh), FREE);
    }

    /// Ends the life of a lot that was dequeued, by one atomic store: it is free for another one-shot.
    pub fn free(&self, home: &mut Home<J>, bh: u32)
        requires seat { IsSeatOf self.now home.old.seat }
        requires done { MayFollow self.now.sizes (Free bh) home.old.seat.known.seen }
        ensures seat { IsSeatOf self.now home.new.seat }
        ensures step { Frees bh home.old.seat.known home.new.seat.known }
    {
        self.store_free(&mut home.seat, bh);
    }
}
