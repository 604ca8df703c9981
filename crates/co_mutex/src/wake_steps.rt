//! The steps of a pass that gives the lock up, or that has the duty to wake, one a function.
ghost use Rattle.std.specs.Prelude.{◌≡◌, ◌≢◌, ℕ, ◌+◌, ◌<◌, ◌≤◌, ◌==◌, cond, MatchBool, List, [], ◌∷◌};
ghost use Rattle.aio_model.specs.Lock.History.{value_of};
ghost use Rattle.aio_model.specs.Lock.Notes.{SameNotes};
ghost use Rattle.co_mutex.specs.PoppedList.{PoppedList};
ghost use Rattle.co_mutex.specs.declared.slot.Slot.TheVariants.{Waiters, Out};
ghost use Rattle.co_mutex.specs.LockWords.{handoff_at, head_at, next_at, grant_at, who_at};
ghost use Rattle.co_mutex.specs.Places.{Unlocking, ToPop, Walking, Nobody, Granting, AtRest, Holds, OnDuty, Published, Found, side_of};
ghost use Rattle.co_mutex.specs.Rule.{Popped as Listed};
ghost use Rattle.co_mutex.specs.Known.{WhoLoad, HandoffStore, HandoffCompare, SecondLook, moves};
ghost use Rattle.co_mutex.specs.Plays.{done, LeftAlone, LeftOthers, Swaps, Loads, Grants, TakesDuty};
ghost use Rattle.co_mutex.specs.Passes.{IsOf, built_of, known, carried};

use crate::lock::{CoMutex, Pass};
use crate::plays::{
    CompareHandoff, LoadNext, LoadWho, LookAgain, StoreGrant, StoreHandoff, SubLocked, SwapHead,
};
use crate::popped::Popped;
use crate::rule::LockRule;
use crate::slot::Slot;
use crate::words::{HANDOFF, HEAD, LOCKED, grant_word, next_word, who_word};

impl<P: LockRule> CoMutex<P> {
    /// Moves the value back into its slot, and subtracts 1.
    pub(crate) fn give_value(&self, pass: &mut Pass<P>, value: P::Value) -> u64
        requires pass { IsOf self.now pass.old }
        requires holds { (carried pass.old ≡ (0, Out) ∷ []) × ((known pass.old).place ≡ Holds) }
        requires notes { SameNotes P.note (known pass.old).number (value_of (built_of self.now) (known pass.old).seen) value }
        ensures pass { IsOf self.now pass.new }
        ensures step { MatchBool (result == 1) (LeftAlone value result (known pass.old) pass.new.seat.me) (LeftOthers value result (known pass.old) pass.new.seat.me) }
    {
        let out = self
            .table
            .shared
            .exchange(&mut pass.seat, 0, Slot::Value(value));
        let Slot::Out = out else { unreachable!() };
        self.table
            .shared
            .fetch_sub::<SubLocked>(&mut pass.seat, LOCKED, 1)
    }

    pub(crate) fn take_list(&self, pass: &mut Pass<P>) -> Popped
        requires pass { IsOf self.now pass.old }
        requires list { (list : PoppedList) × (carried pass.old ≡ (1, Waiters list) ∷ []) }
        ensures pass { IsOf self.now pass.new }
        ensures list { (carried pass.old ≡ (1, Waiters result) ∷ []) × (pass.new.seat.me ≡ (known pass.old, (1, Out) ∷ [])) }
    {
        let there = self.table.shared.exchange(&mut pass.seat, 1, Slot::Out);
        let Slot::Waiters(list) = there else {
            unreachable!()
        };
        list
    }

    pub(crate) fn put_list(&self, pass: &mut Pass<P>, list: Popped)
        requires pass { IsOf self.now pass.old }
        requires out { carried pass.old ≡ (1, Out) ∷ [] }
        ensures pass { IsOf self.now pass.new }
        ensures list { pass.new.seat.me ≡ (known pass.old, (1, Waiters list) ∷ []) }
    {
        let out = self
            .table
            .shared
            .exchange(&mut pass.seat, 1, Slot::Waiters(list));
        let Slot::Out = out else { unreachable!() };
    }

    pub(crate) fn swap_head(&self, pass: &mut Pass<P>) -> u64
        requires pass { IsOf self.now pass.old }
        requires duty { (known pass.old).place ≡ OnDuty (side_of (known pass.old).place) (ToPop []) }
        ensures pass { IsOf self.now pass.new }
        ensures step { Swaps (side_of (known pass.old).place) pass.old.seat.me result pass.new.seat.me }
    {
        self.table.shared.swap::<SwapHead>(&mut pass.seat, HEAD, 0)
    }

    pub(crate) fn load_next(&self, pass: &mut Pass<P>, q: u32) -> u64
        requires pass { IsOf self.now pass.old }
        requires below { q < (known pass.old).passes }
        requires duty { (left : List ℕ) × (list : List ℕ) × ((known pass.old).place ≡ OnDuty (side_of (known pass.old).place) (Walking (q + 1) left list)) }
        ensures pass { IsOf self.now pass.new }
        ensures step { (left list : List ℕ) → (known pass.old).place ≡ OnDuty (side_of (known pass.old).place) (Walking (q + 1) left list) → Loads (side_of (known pass.old).place) (q + 1) list (next_at q) pass.old.seat.me result pass.new.seat.me }
    {
        let word = next_word(q);
        self.table.shared.load::<LoadNext>(&mut pass.seat, word)
    }

    pub(crate) fn load_who(&self, pass: &mut Pass<P>, q: u32) -> u64
        requires pass { IsOf self.now pass.old }
        requires below { q < (known pass.old).passes }
        requires duty { (rest : List ℕ) × ((known pass.old).place ≡ OnDuty (side_of (known pass.old).place) (ToPop (q ∷ rest))) }
        ensures pass { IsOf self.now pass.new }
        ensures step { (rest : List ℕ) → (known pass.old).place ≡ OnDuty (side_of (known pass.old).place) (ToPop (q ∷ rest)) → pass.new.seat.me ≡ (moves (known pass.old) (OnDuty (side_of (known pass.old).place) (Granting q result rest)) (done WhoLoad (who_at q) result), carried pass.old) }
    {
        let word = who_word(q);
        self.table.shared.load::<LoadWho>(&mut pass.seat, word)
    }

    pub(crate) fn store_grant(&self, pass: &mut Pass<P>, q: u32)
        requires pass { IsOf self.now pass.old }
        requires below { q < (known pass.old).passes }
        requires duty { (who : ℕ) × (rest : List ℕ) × (last : ℕ) × ((known pass.old).place ≡ OnDuty (side_of (known pass.old).place) (Granting q who rest)) × (carried pass.old ≡ (1, Listed rest last) ∷ []) }
        ensures pass { IsOf self.now pass.new }
        ensures step { (who : ℕ) (rest : List ℕ) → (known pass.old).place ≡ OnDuty (side_of (known pass.old).place) (Granting q who rest) → Grants (side_of (known pass.old).place) q who (grant_at q) (known pass.old) pass.new.seat.me }
    {
        let word = grant_word(q);
        self.table
            .shared
            .store::<StoreGrant>(&mut pass.seat, word, 1);
    }

    pub(crate) fn store_number(&self, pass: &mut Pass<P>, number: u64)
        requires pass { IsOf self.now pass.old }
        requires some { number ≢ 0 }
        requires duty { (known pass.old).place ≡ OnDuty Unlocking Nobody }
        requires list { (last : ℕ) × (carried pass.old ≡ (1, Listed [] last) ∷ []) }
        ensures pass { IsOf self.now pass.new }
        ensures step { pass.new.seat.me ≡ (moves (known pass.old) (Published number) (done HandoffStore handoff_at number), []) }
    {
        self.table
            .shared
            .store::<StoreHandoff>(&mut pass.seat, HANDOFF, number);
    }

    pub(crate) fn look_again(&self, pass: &mut Pass<P>, number: u64) -> u64
        requires pass { IsOf self.now pass.old }
        requires place { ((known pass.old).place ≡ Published number) × (carried pass.old ≡ []) }
        ensures pass { IsOf self.now pass.new }
        ensures step { pass.new.seat.me ≡ (moves (known pass.old) (cond (result == 0) AtRest (Found number)) (done SecondLook head_at result), []) }
    {
        self.table.shared.load::<LookAgain>(&mut pass.seat, HEAD)
    }

    pub(crate) fn take_back(&self, pass: &mut Pass<P>, number: u64) -> u64
        requires pass { IsOf self.now pass.old }
        requires place { ((known pass.old).place ≡ Found number) × (carried pass.old ≡ []) }
        ensures pass { IsOf self.now pass.new }
        ensures step { MatchBool (result == number) (TakesDuty Unlocking result (known pass.old) pass.new.seat.me) (pass.new.seat.me ≡ (moves (known pass.old) AtRest (done HandoffCompare handoff_at result), [])) }
    {
        self.table
            .shared
            .compare_exchange::<CompareHandoff>(&mut pass.seat, HANDOFF, number, 0)
    }
}
