//! The steps on words by which a pass locks, one a function.
ghost use Rattle.std.specs.Prelude.{◌≡◌, ◌≢◌, ℕ, ◌+◌, ◌<◌, ◌==◌, cond, MatchBool, [], ◌∷◌};
ghost use Rattle.aio_model.specs.Lock.History.{value_of};
ghost use Rattle.co_mutex.specs.declared.slot.Slot.TheVariants.{Value, Out};
ghost use Rattle.co_mutex.specs.LockWords.{locked_at, handoff_at, head_at, next_at, grant_at, who_at};
ghost use Rattle.co_mutex.specs.Places.{Locking, ToPop, AtRest, Counted, Named, HeadLoaded, Linked, Pushed, Loaded, Queued, SelfGranted, OnDuty};
ghost use Rattle.co_mutex.specs.Known.{LockedCompare, LockedFetchAdd, WhoStore, HeadLoad, NextStore, HeadCompare, HandoffLoad, HandoffCompare, GrantSwap, moves};
ghost use Rattle.co_mutex.specs.Plays.{done, Gets, Pushes, TakesDuty, FindsGrant, TakesOwn};
ghost use Rattle.co_mutex.specs.Passes.{IsOf, built_of, known, carried};

use crate::lock::{CoMutex, Pass};
use crate::plays::{
    AddLocked, CompareHandoff, CompareHead, CompareLocked, LoadHandoff, LoadHead, StoreNext,
    StoreWho, SwapGrant,
};
use crate::rule::LockRule;
use crate::slot::Slot;
use crate::words::{HANDOFF, HEAD, LOCKED, grant_word, next_word, who_word};

impl<P: LockRule> CoMutex<P> {
    pub(crate) fn compare_locked(&self, pass: &mut Pass<P>) -> u64
        requires pass { IsOf self.now pass.old }
        requires rest { (carried pass.old ≡ []) × ((known pass.old).place ≡ AtRest) }
        ensures pass { IsOf self.now pass.new }
        ensures step { MatchBool (result == 0) (Gets P.note LockedCompare (built_of self.now) pass.old.seat.me pass.new.seat.me) (pass.new.seat.me ≡ (moves (known pass.old) AtRest (done LockedCompare locked_at result), [])) }
    {
        self.table
            .shared
            .compare_exchange::<CompareLocked<P>>(&mut pass.seat, LOCKED, 0, 1)
    }

    pub(crate) fn add_locked(&self, pass: &mut Pass<P>) -> u64
        requires pass { IsOf self.now pass.old }
        requires rest { (carried pass.old ≡ []) × ((known pass.old).place ≡ AtRest) }
        ensures pass { IsOf self.now pass.new }
        ensures step { MatchBool (result == 0) (Gets P.note LockedFetchAdd (built_of self.now) pass.old.seat.me pass.new.seat.me) (pass.new.seat.me ≡ (moves (known pass.old) Counted (done LockedFetchAdd locked_at result), [])) }
    {
        self.table
            .shared
            .fetch_add::<AddLocked<P>>(&mut pass.seat, LOCKED, 1)
    }

    /// Moves the value out of its slot.
    pub(crate) fn take_value(&self, pass: &mut Pass<P>) -> P::Value
        requires pass { IsOf self.now pass.old }
        requires value { (x : P.Value) × (carried pass.old ≡ (0, Value x) ∷ []) }
        ensures pass { IsOf self.now pass.new }
        ensures value { (carried pass.old ≡ (0, Value result) ∷ []) × (pass.new.seat.me ≡ (known pass.old, (0, Out) ∷ [])) }
    {
        let there = self.table.shared.exchange(&mut pass.seat, 0, Slot::Out);
        let Slot::Value(value) = there else {
            unreachable!()
        };
        value
    }

    pub(crate) fn store_who(&self, pass: &mut Pass<P>, who: u64)
        requires pass { IsOf self.now pass.old }
        requires place { (carried pass.old ≡ []) × ((known pass.old).place ≡ Counted) }
        ensures pass { IsOf self.now pass.new }
        ensures step { pass.new.seat.me ≡ (moves (known pass.old) (Named who) (done WhoStore (who_at (known pass.old).number) who), []) }
    {
        let word = who_word(pass.number);
        self.table
            .shared
            .store::<StoreWho>(&mut pass.seat, word, who);
    }

    pub(crate) fn load_head(&self, pass: &mut Pass<P>) -> u64
        requires pass { IsOf self.now pass.old }
        requires place { (carried pass.old ≡ []) × ((who : ℕ) × ((known pass.old).place ≡ Named who)) }
        ensures pass { IsOf self.now pass.new }
        ensures step { (who : ℕ) → (known pass.old).place ≡ Named who → pass.new.seat.me ≡ (moves (known pass.old) (HeadLoaded who result) (done HeadLoad head_at result), []) }
    {
        self.table.shared.load::<LoadHead>(&mut pass.seat, HEAD)
    }

    pub(crate) fn store_next(&self, pass: &mut Pass<P>, head: u64)
        requires pass { IsOf self.now pass.old }
        requires place { (carried pass.old ≡ []) × ((who : ℕ) × ((known pass.old).place ≡ HeadLoaded who head)) }
        ensures pass { IsOf self.now pass.new }
        ensures step { (who : ℕ) → (known pass.old).place ≡ HeadLoaded who head → pass.new.seat.me ≡ (moves (known pass.old) (Linked who head) (done NextStore (next_at (known pass.old).number) head), []) }
    {
        let word = next_word(pass.number);
        self.table
            .shared
            .store::<StoreNext>(&mut pass.seat, word, head);
    }

    pub(crate) fn compare_head(&self, pass: &mut Pass<P>, head: u64) -> u64
        requires pass { IsOf self.now pass.old }
        requires place { (carried pass.old ≡ []) × ((who : ℕ) × ((known pass.old).place ≡ Linked who head)) }
        ensures pass { IsOf self.now pass.new }
        ensures step { (who : ℕ) → (known pass.old).place ≡ Linked who head → MatchBool (result == head) (Pushes who result pass.old.seat.me pass.new.seat.me) (pass.new.seat.me ≡ (moves (known pass.old) (Named who) (done HeadCompare head_at result), [])) }
    {
        let first = u64::from(pass.number) + 1;
        self.table
            .shared
            .compare_exchange::<CompareHead>(&mut pass.seat, HEAD, head, first)
    }

    pub(crate) fn load_handoff(&self, pass: &mut Pass<P>) -> u64
        requires pass { IsOf self.now pass.old }
        requires place { (carried pass.old ≡ []) × ((known pass.old).place ≡ Pushed) }
        ensures pass { IsOf self.now pass.new }
        ensures step { pass.new.seat.me ≡ (moves (known pass.old) (cond (result == 0) Queued (Loaded result)) (done HandoffLoad handoff_at result), []) }
    {
        self.table
            .shared
            .load::<LoadHandoff>(&mut pass.seat, HANDOFF)
    }

    pub(crate) fn take_handoff(&self, pass: &mut Pass<P>, number: u64) -> u64
        requires pass { IsOf self.now pass.old }
        requires place { (carried pass.old ≡ []) × ((known pass.old).place ≡ Loaded number) }
        ensures pass { IsOf self.now pass.new }
        ensures step { MatchBool (result == number) (TakesDuty Locking result (known pass.old) pass.new.seat.me) (pass.new.seat.me ≡ (moves (known pass.old) Queued (done HandoffCompare handoff_at result), [])) }
    {
        self.table
            .shared
            .compare_exchange::<CompareHandoff>(&mut pass.seat, HANDOFF, number, 0)
    }

    /// The swap of a queued pass.
    pub(crate) fn swap_grant(&self, pass: &mut Pass<P>) -> u64
        requires pass { IsOf self.now pass.old }
        requires place { (carried pass.old ≡ []) × ((known pass.old).place ≡ Queued) }
        ensures pass { IsOf self.now pass.new }
        ensures step { MatchBool (result == 1) (FindsGrant P.note (grant_at (known pass.old).number) (built_of self.now) pass.old.seat.me pass.new.seat.me) ((result ≡ 0) × (pass.new.seat.me ≡ (moves (known pass.old) Queued (done GrantSwap (grant_at (known pass.old).number) 0), []))) }
    {
        let word = grant_word(pass.number);
        self.table
            .shared
            .swap::<SwapGrant<P>>(&mut pass.seat, word, 0)
    }

    /// The swap of a pass that granted itself.
    pub(crate) fn swap_own_grant(&self, pass: &mut Pass<P>)
        requires pass { IsOf self.now pass.old }
        requires place { (carried pass.old ≡ []) × ((known pass.old).place ≡ SelfGranted) }
        ensures pass { IsOf self.now pass.new }
        ensures step { TakesOwn P.note (grant_at (known pass.old).number) (built_of self.now) pass.old.seat.me pass.new.seat.me }
    {
        let word = grant_word(pass.number);
        self.table
            .shared
            .swap::<SwapGrant<P>>(&mut pass.seat, word, 0);
    }
}
