//! An enqueue from any thread, step by step, after aio_bh_enqueue of QEMU's util/async.c: set the flags, and where the index
//! was not pending, push it in front of the list.
ghost use Rattle.std.specs.Prelude.{◌≡◌, ◌<◌, ◌==◌, ℕ, [], ◌∷◌, MatchOption, MatchResult, MatchBool, true, false};
ghost use Rattle.aio_model.specs.Loop.FlagsWord.{word_of};
ghost use Rattle.aio_model.specs.Loop.InFlight.{AtRest, Announced as announced, HeadLoaded, Linked};
ghost use Rattle.aio_model.specs.Loop.Flags.{is_once};
ghost use Rattle.aio_core.specs.Words.{index_count};
ghost use Rattle.aio_core.specs.Standing.{asks_of_kind, mask_of, Enqueues, Aims, Pushes, Misses};
ghost use Rattle.aio_core.specs.Plays.{Enqueued, HeadIsLoaded, NextIsStored};
ghost use Rattle.aio_core.specs.Calls.{IsSeatOf, IsMissed, IsReady};

use crate::job::Job;
use crate::plays::{CompareHead, Enqueue, LoadHead, StoreNext};
use crate::seat::Seat;
use crate::table::LoopTable;
use crate::tokens::{Aimed, Announced};
use crate::words::{HEAD, flags_word, next_word};
use aio_model::{Flags, Kind};

/// The bits that a call of this kind sets.
fn mask(kind: Kind) -> u64
    ensures { result ≡ mask_of (asks_of_kind kind) }
{
    match kind {
        Kind::Sched => Flags::PENDING | Flags::SCHEDULED,
        Kind::Idle => Flags::PENDING | Flags::SCHEDULED | Flags::IDLE,
        Kind::Del => Flags::PENDING | Flags::DELETED,
    }
}

impl<J: Job> LoopTable<J> {
    fn set_flags(&self, seat: &mut Seat<J>, bh: u32, kind: Kind, mask: u64) -> u64
        requires seat { IsReady self.now seat.old }
        requires handle { bh < self.now.sizes.handles }
        requires mask { mask ≡ mask_of (asks_of_kind kind) }
        ensures seat { IsSeatOf self.now seat.new }
        ensures step { Enqueued bh (mask_of (asks_of_kind kind)) result seat.old.known seat.new.known }
    {
        self.table
            .shared
            .fetch_or::<Enqueue>(&mut seat.inner, flags_word(bh), mask)
    }

    fn load_head(&self, seat: &mut Seat<J>, bh: u32) -> u64
        requires seat { IsSeatOf self.now seat.old }
        requires phase { seat.old.known.phase ≡ announced bh }
        ensures seat { IsSeatOf self.now seat.new }
        ensures step { HeadIsLoaded bh result seat.old.known seat.new.known }
    {
        self.table.shared.load::<LoadHead>(&mut seat.inner, HEAD)
    }

    fn store_next(&self, seat: &mut Seat<J>, bh: u32, head: u64)
        requires seat { IsSeatOf self.now seat.old }
        requires phase { seat.old.known.phase ≡ HeadLoaded bh head }
        requires below { bh < index_count self.now.sizes }
        ensures seat { IsSeatOf self.now seat.new }
        ensures step { NextIsStored bh head seat.old.known seat.new.known }
    {
        self.table
            .shared
            .store::<StoreNext>(&mut seat.inner, next_word(bh), head)
    }

    fn compare_head(&self, seat: &mut Seat<J>, bh: u32, head: u64) -> u64
        requires seat { IsSeatOf self.now seat.old }
        requires phase { seat.old.known.phase ≡ Linked bh head }
        ensures seat { IsSeatOf self.now seat.new }
        ensures step { MatchBool (result == head) (Pushes bh result seat.old.known seat.new.known) (Misses bh result seat.old.known seat.new.known) }
    {
        self.table
            .shared
            .compare_exchange::<CompareHead>(&mut seat.inner, HEAD, head, u64::from(bh) + 1)
    }

    /// Sets the flags of an enqueue, one atomic step, and answers those that it found. Where the handle was not pending,
    /// the seat has announced it and is to push it. Any thread, with a seat of its own.
    pub fn announce(&self, seat: &mut Seat<J>, bh: u32, kind: Kind) -> (Flags, Option<Announced>)
        requires seat { IsReady self.now seat.old }
        requires handle { bh < self.now.sizes.handles }
        ensures seat { IsSeatOf self.now seat.new }
        ensures step { Enqueues bh (asks_of_kind kind) result.0 seat.old.known seat.new.known }
        ensures owed { MatchOption result.1 (result.0.pending ≡ true) (λ owed. (result.0.pending ≡ false) × (owed ≡ bh)) }
    {
        let found = self.set_flags(seat, bh, kind, mask(kind));
        let flags = Flags::from_word(found);
        let owed = if flags.pending {
            None
        } else {
            Some(Announced::of(bh))
        };
        (flags, owed)
    }

    /// Loads the head of the list and stores it as what follows the index: two atomic steps. The seat that announced it.
    pub fn aim(&self, seat: &mut Seat<J>, owed: Announced) -> Aimed
        requires seat { IsSeatOf self.now seat.old }
        requires phase { seat.old.known.phase ≡ announced owed }
        ensures seat { IsSeatOf self.now seat.new }
        ensures index { result.0 ≡ owed }
        ensures steps { Aims owed result.1 seat.old.known seat.new.known }
    {
        let bh = owed.into_bh();
        let head = self.load_head(seat, bh);
        self.store_next(seat, bh, head);
        Aimed::of(bh, head)
    }

    /// Pushes the index in front of the list, by one compare and exchange of the head that was loaded. Where another index
    /// was pushed or the list was taken since, the debt comes back, to be aimed anew.
    pub fn link(&self, seat: &mut Seat<J>, aimed: Aimed) -> Result<(), Announced>
        requires seat { IsSeatOf self.now seat.old }
        requires phase { seat.old.known.phase ≡ Linked aimed.0 aimed.1 }
        ensures seat { IsSeatOf self.now seat.new }
        ensures step { MatchResult result (λ _. Pushes aimed.0 aimed.1 seat.old.known seat.new.known) (λ owed. (owed ≡ aimed.0) × IsMissed aimed.0 aimed.1 seat.old.known seat.new.known) }
    {
        let (bh, head) = aimed.into_parts();
        let found = self.compare_head(seat, bh, head);
        if found == head {
            Ok(())
        } else {
            Err(Announced::of(bh))
        }
    }
}
