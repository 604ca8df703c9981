//! A one-shot from any thread, after aio_bh_schedule_oneshot of QEMU's util/async.c, but with a place for its job in the table in
//! place of memory: a life of a free lot is begun for the job, the job is moved in, and the lot is enqueued.
ghost use Rattle.std.specs.Prelude.{◌≡◌, ◌≤◌, ◌<◌, ◌+◌, ◌==◌, ℕ, [], ◌∷◌, None, Some, MatchBool, MatchOption, MatchResult};
ghost use Rattle.aio_model.specs.Loop.InFlight.{AtRest, LotClaimed};
ghost use Rattle.aio_core.specs.Known.{LotClaimCompare};
ghost use Rattle.aio_core.specs.Words.{free_word, flags_at, index_count};
ghost use Rattle.aio_core.specs.Standing.{Claims, Looks, PlacesJob};
ghost use Rattle.aio_core.specs.Plays.{Enqueued};
ghost use Rattle.aio_core.specs.Calls.{IsSeatOf, IsTaken, IsReady};

use crate::job::Job;
use crate::plays::{ClaimLot, EnqueueLot, Inner};
use crate::seat::Seat;
use crate::table::LoopTable;
use crate::tokens::Announced;
use crate::words::{FREE, flags_word};
use aio_model::Flags;

impl<J: Job> LoopTable<J> {
    /// The index of a lot.
    pub(crate) fn index_of_lot(&self, lot: u32) -> u32
        requires lot { lot < self.now.sizes.lots }
        ensures index { result ≡ self.now.sizes.handles + lot }
    {
        self.counts.handles + lot
    }

    /// The place of a lot among the lots.
    pub(crate) fn lot_of(&self, bh: u32) -> u32
        requires lot { (self.now.sizes.handles ≤ bh) × (bh < index_count self.now.sizes) }
        ensures lot { result < self.now.sizes.lots }
        ensures index { bh ≡ self.now.sizes.handles + result }
    {
        bh - self.counts.handles
    }

    /// Begins a life of a free lot for the job, whose place is then the seat's.
    fn claim(&self, inner: &mut Inner<J>, lot: u32, job: &Option<J>) -> u64
        requires table { inner.old.table_id ≡ self.now.table }
        requires numbers { 0 < inner.old.me.0.count }
        requires rest { inner.old.me.0.phase ≡ AtRest }
        requires lot { lot < self.now.sizes.lots }
        requires job { (x : J) × (job.now ≡ Some x) }
        requires sizes { inner.old.me.0.sizes ≡ self.now.sizes }
        ensures seat { (inner.new.table_id ≡ inner.old.table_id) × (inner.new.id ≡ inner.old.id) }
        ensures told { (x : J) → job.now ≡ Some x → MatchBool (result == free_word) (Claims (self.now.sizes.handles + lot) (J.number_of x) result inner.old.me.0 inner.new.me.0 × (inner.new.me.1 ≡ (lot, None) ∷ inner.old.me.1)) (Looks LotClaimCompare (flags_at (self.now.sizes.handles + lot)) result inner.old.me.0 inner.new.me.0 × (inner.new.me.1 ≡ inner.old.me.1)) }
    {
        let bh = self.index_of_lot(lot);
        self.table
            .shared
            .compare_exchange_with::<ClaimLot>(inner, flags_word(bh), FREE, 0, job)
    }

    /// Moves the job into the place of a claimed lot, and enqueues the lot, which gives the place back. Answers what was there:
    /// nothing.
    fn put_job(&self, inner: &mut Inner<J>, lot: u32, job: Option<J>) -> Option<J>
        requires table { inner.old.table_id ≡ self.now.table }
        requires numbers { 0 < inner.old.me.0.count }
        requires sizes { inner.old.me.0.sizes ≡ self.now.sizes }
        requires lot { lot < self.now.sizes.lots }
        requires claimed { (x : J) × (job ≡ Some x) × (inner.old.me.0.phase ≡ LotClaimed (self.now.sizes.handles + lot) (J.number_of x)) }
        requires place { inner.old.me.1 ≡ (lot, None) ∷ [] }
        ensures seat { (inner.new.table_id ≡ inner.old.table_id) × (inner.new.id ≡ inner.old.id) × (inner.new.me.1 ≡ []) }
        ensures empty { result ≡ None }
        ensures told { (found : ℕ) × Enqueued (self.now.sizes.handles + lot) 11 found inner.old.me.0 inner.new.me.0 }
    {
        let bh = self.index_of_lot(lot);
        let empty = self.table.shared.exchange(inner, lot as usize, job);
        self.table.shared.fetch_or::<EnqueueLot>(
            inner,
            flags_word(bh),
            Flags::PENDING | Flags::SCHEDULED | Flags::ONESHOT,
        );
        empty
    }

    /// Claims the lot, and gives it the job. The job comes back where the lot wasn't free.
    fn deliver(&self, inner: &mut Inner<J>, lot: u32, job: Option<J>) -> Option<J>
        requires table { inner.old.table_id ≡ self.now.table }
        requires numbers { 0 < inner.old.me.0.count }
        requires rest { inner.old.me.0.phase ≡ AtRest }
        requires lot { lot < self.now.sizes.lots }
        requires job { (x : J) × (job ≡ Some x) }
        requires sizes { inner.old.me.0.sizes ≡ self.now.sizes }
        requires places { inner.old.me.1 ≡ [] }
        ensures seat { (inner.new.table_id ≡ inner.old.table_id) × (inner.new.id ≡ inner.old.id) × (inner.new.me.1 ≡ []) }
        ensures told { (x : J) → job ≡ Some x → MatchOption result (PlacesJob (self.now.sizes.handles + lot) (J.number_of x) inner.old.me.0 inner.new.me.0) (λ back. (back ≡ x) × IsTaken (self.now.sizes.handles + lot) inner.old.me.0 inner.new.me.0) }
    {
        let found = self.claim(inner, lot, &job);
        if found == FREE {
            self.put_job(inner, lot, job)
        } else {
            job
        }
    }

    fn place(&self, seat: &mut Seat<J>, bh: u32, job: Option<J>) -> Option<J>
        requires seat { IsReady self.now seat.old }
        requires lot { (self.now.sizes.handles ≤ bh) × (bh < index_count self.now.sizes) }
        requires job { (x : J) × (job ≡ Some x) }
        ensures seat { IsSeatOf self.now seat.new }
        ensures told { (x : J) → job ≡ Some x → MatchOption result (PlacesJob bh (J.number_of x) seat.old.known seat.new.known) (λ back. (back ≡ x) × IsTaken bh seat.old.known seat.new.known) }
    {
        let lot = self.lot_of(bh);
        self.deliver(&mut seat.inner, lot, job)
    }

    /// Begins a life of a lot for a job and enqueues the lot, by two atomic steps: the compare that finds it free, and the
    /// setting of its flags. The seat has announced it then, and is to push it. The job comes back where the lot wasn't free.
    /// Any thread, with a seat of its own.
    pub fn announce_once(&self, seat: &mut Seat<J>, bh: u32, job: J) -> Result<Announced, J>
        requires seat { IsReady self.now seat.old }
        requires lot { (self.now.sizes.handles ≤ bh) × (bh < index_count self.now.sizes) }
        ensures seat { IsSeatOf self.now seat.new }
        ensures steps { MatchResult result (λ owed. (owed ≡ bh) × PlacesJob bh (J.number_of job) seat.old.known seat.new.known) (λ back. (back ≡ job) × IsTaken bh seat.old.known seat.new.known) }
    {
        match self.place(seat, bh, Some(job)) {
            None => Ok(Announced::of(bh)),
            Some(job) => Err(job),
        }
    }
}
