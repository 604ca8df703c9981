//! The steps of the home thread: it takes the list whole, and dequeues what it took, after aio_bh_poll and aio_bh_dequeue of
//! QEMU's util/async.c.
ghost use Rattle.std.specs.Prelude.{◌≡◌, ◌≢◌, ◌<◌, ◌≤◌, ◌+◌, [], ◌∷◌, length, drop, slice_index, None, Some, IfSome, MatchOption, true};
ghost use Rattle.aio_core.specs.Known.{Known, IsHomes};
ghost use Rattle.aio_core.specs.Words.{index_count};
ghost use Rattle.aio_core.specs.Standing.{Takes, Lifts, Dequeues};
ghost use Rattle.aio_core.specs.Plays.{Dequeued};
ghost use Rattle.aio_core.specs.Calls.{IsSeatOf, HasTaken, HasLifted, first_home};
ghost use Rattle.aio_core.specs.HomeState.{are_within, is_handle};

use crate::job::Job;
use crate::plays::{Dequeue, LoadNext, Take};
use crate::seat::Seat;
use crate::slices::Slices;
use crate::table::LoopTable;
use crate::tokens::InHand;
use crate::words::{HEAD, flags_word, next_word};
use aio_model::Flags;

/// The home's seat, with what it has taken from the list. Whoever has it is the home thread.
#[derive(Drop)]
pub struct Home<J: Job> {
    pub seat: Seat<J>,
    pub(crate) slices: Slices,
    ghost number: { IsHomes seat.known },
    ghost same_slices: { slices ≡ seat.known.stage.slices },
    ghost few_slices: { length slices ≤ 8 },
    ghost slices_within: { are_within seat.known.sizes slices ≡ true },
    ghost hand_is_handle: { is_handle seat.known.sizes seat.known.stage.hand ≡ true },
}

impl<J: Job> Home<J> {
    pub(crate) fn of(seat: Seat<J>) -> Home<J>
        requires { seat.known ≡ first_home seat.known.sizes }
        ensures { result.seat ≡ seat }
    {
        Home {
            seat,
            slices: Slices::none(),
        }
    }
}

impl<J: Job> LoopTable<J> {
    #[inline(always)]
    fn swap_head(&self, seat: &mut Seat<J>) -> u64
        requires seat { IsSeatOf self.now seat.old }
        requires number { IsHomes seat.old.known }
        ensures seat { IsSeatOf self.now seat.new }
        ensures step { Takes result seat.old.known seat.new.known }
    {
        self.table.shared.swap::<Take>(&mut seat.inner, HEAD, 0)
    }

    #[inline(always)]
    fn load_after(&self, seat: &mut Seat<J>, bh: u32) -> u64
        requires seat { IsSeatOf self.now seat.old }
        requires number { IsHomes seat.old.known }
        requires handle { bh < self.now.sizes.handles }
        requires first { seat.old.known.stage.slices ≡ (bh + 1) ∷ drop 1 seat.old.known.stage.slices }
        requires free { seat.old.known.stage.hand ≡ None }
        ensures seat { IsSeatOf self.now seat.new }
        ensures step { Lifts bh result None (drop 1 seat.old.known.stage.slices) seat.old.known seat.new.known }
    {
        self.table
            .shared
            .load::<LoadNext>(&mut seat.inner, next_word(bh))
    }

    #[inline(always)]
    fn clear_flags(&self, seat: &mut Seat<J>, bh: u32) -> u64
        requires seat { IsSeatOf self.now seat.old }
        requires number { IsHomes seat.old.known }
        requires handle { bh < self.now.sizes.handles }
        requires hand { seat.old.known.stage.hand ≡ Some bh }
        ensures seat { IsSeatOf self.now seat.new }
        ensures step { Dequeued bh result seat.old.known seat.new.known }
    {
        let kept = !(Flags::PENDING | Flags::SCHEDULED | Flags::IDLE);
        self.table
            .shared
            .fetch_and::<Dequeue>(&mut seat.inner, flags_word(bh), kept)
    }

    /// The index to which a word of the list leads.
    #[inline(always)]
    pub(crate) fn index_of(&self, word: u64) -> u32
        requires some { 0 < word }
        requires below { word ≤ index_count self.now.sizes }
        ensures { result + 1 ≡ word }
    {
        let _counts = &self.counts;
        (word - 1) as u32
    }

    /// Takes all that was pushed, by one atomic step, as the last slice.
    #[inline(always)]
    pub fn take(&self, home: &mut Home<J>)
        requires seat { IsSeatOf self.now home.old.seat }
        requires room { length home.old.seat.known.stage.slices < 8 }
        ensures seat { IsSeatOf self.now home.new.seat }
        ensures step { HasTaken home.old.seat.known home.new.seat.known }
    {
        let found = self.swap_head(&mut home.seat);
        home.slices.push(found);
    }

    /// The first of the first slice, by no step. None where no slice is left.
    #[inline(always)]
    pub fn next(&self, home: &Home<J>) -> Option<u32>
        requires seat { IsSeatOf self.now home.now.seat }
        ensures first { MatchOption result (home.now.seat.known.stage.slices ≡ []) (λ bh. (bh < index_count self.now.sizes) × (home.now.seat.known.stage.slices ≡ (bh + 1) ∷ drop 1 home.now.seat.known.stage.slices)) }
    {
        Some(self.index_of(home.slices.first()?))
    }

    /// Takes the first of the first slice, a handle, in hand, by one atomic load of what follows it.
    #[inline(always)]
    pub fn lift(&self, home: &mut Home<J>, bh: u32) -> InHand
        requires seat { IsSeatOf self.now home.old.seat }
        requires free { home.old.seat.known.stage.hand ≡ None }
        requires handle { bh < self.now.sizes.handles }
        requires first { home.old.seat.known.stage.slices ≡ (bh + 1) ∷ drop 1 home.old.seat.known.stage.slices }
        ensures seat { IsSeatOf self.now home.new.seat }
        ensures hand { result ≡ bh }
        ensures step { HasLifted bh home.old.seat.known home.new.seat.known }
    {
        let found = self.load_after(&mut home.seat, bh);
        home.slices.lift(found);
        InHand::of(bh)
    }

    /// Dequeues the handle in hand: clears the flags of its round by one atomic step, and answers those that it found.
    #[inline(always)]
    pub fn dequeue(&self, home: &mut Home<J>, hand: InHand) -> Flags
        requires seat { IsSeatOf self.now home.old.seat }
        requires hand { home.old.seat.known.stage.hand ≡ Some hand }
        ensures seat { IsSeatOf self.now home.new.seat }
        ensures step { Dequeues hand result home.old.seat.known home.new.seat.known }
    {
        let found = self.clear_flags(&mut home.seat, hand.into_bh());
        Flags::from_word(found)
    }
}
