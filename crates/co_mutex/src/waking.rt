//! The parts of a wake: finding a waiter, granting it, and publishing the hand-off where there is none.
ghost use Rattle.std.specs.Prelude.{◌≡◌, ◌≢◌, ℕ, ◌<◌, ◌≤◌, List, [], ◌∷◌};
ghost use Rattle.co_mutex.specs.declared.slot.Slot.TheVariants.{Out};
ghost use Rattle.co_mutex.specs.Places.{Unlocking, ToPop, Walking, Nobody, OnDuty, side_of};
ghost use Rattle.co_mutex.specs.Passes.{IsOf, known, carried};
ghost use Rattle.co_mutex.specs.Waking.{Granted, Offered, WalkedPasses};

use crate::lock::{CoMutex, Pass};
use crate::popped::Popped;
use crate::rule::LockRule;
use std::sync::Wait;

impl<P: LockRule> CoMutex<P> {
    /// Loads the coroutine of the first waiter, puts the rest back and grants it.
    pub(crate) fn grant(&self, pass: &mut Pass<P>, q: u32, list: Popped) -> u64
        requires pass { IsOf self.now pass.old }
        requires below { q < (known pass.old).passes }
        requires duty { (known pass.old).place ≡ OnDuty (side_of (known pass.old).place) (ToPop (q ∷ list.waiting)) }
        requires list { (carried pass.old ≡ (1, Out) ∷ []) × (list.room ≡ 64) }
        ensures pass { IsOf self.now pass.new }
        ensures granted { Granted (side_of (known pass.old).place) q result (known pass.old) pass.new.seat.me }
    {
        let who = self.load_who(pass, q);
        self.put_list(pass, list);
        self.store_grant(pass, q);
        who
    }

    /// Publishes the hand-off and looks once more. True where the duty was taken back.
    pub(crate) fn offer(&self, pass: &mut Pass<P>, list: Popped) -> bool
        requires pass { IsOf self.now pass.old }
        requires duty { (known pass.old).place ≡ OnDuty Unlocking Nobody }
        requires list { (carried pass.old ≡ (1, Out) ∷ []) × (list.room ≡ 64) × (list.waiting ≡ []) }
        ensures pass { IsOf self.now pass.new }
        ensures offered { Offered result (known pass.old) pass.new.seat.me }
    {
        let mut list = list;
        let number = list.next_number();
        self.put_list(pass, list);
        self.store_number(pass, number);
        if self.look_again(pass, number) == 0 {
            return false;
        }
        self.take_back(pass, number) == number
    }

    /// Walks the pushed list that was taken, the newest first, and puts each waiter in front.
    pub(crate) fn walk<R: Wait>(&self, rt: &R, pass: &mut Pass<P>, list: &mut Popped, first: u64)
        requires pass { IsOf self.now pass.old }
        requires word { (first ≢ 0) × (first ≤ (known pass.old).passes) }
        requires duty { (left : List ℕ) × ((known pass.old).place ≡ OnDuty (side_of (known pass.old).place) (Walking first left [])) }
        requires list { (carried pass.old ≡ (1, Out) ∷ []) × (list.old.room ≡ 64) × (list.old.waiting ≡ []) }
        ensures pass { IsOf self.now pass.new }
        ensures walked { WalkedPasses (side_of (known pass.old).place) (known pass.old) list.new.waiting pass.new.seat.me }
        ensures list { list.new.room ≡ 64 }
    {
        let mut word = first;
        for _ in rt.forever() {
            let q = (word - 1) as u32;
            let next = self.load_next(pass, q);
            list.put_first(q);
            if next == 0 {
                return;
            }
            word = next;
        }
        unreachable!()
    }
}
