//! Unlocking, as qemu_co_mutex_unlock of QEMU's util/qemu-coroutine-lock.c, but a waiter is granted the lock by a word of its
//! own: the duty to wake, from the sub to the grant or to a published hand-off.
ghost use Rattle.std.specs.Prelude.{◌≡◌, ◌≢◌, ℕ, List, [], ◌∷◌};
ghost use Rattle.aio_model.specs.Lock.History.{value_of};
ghost use Rattle.aio_model.specs.Lock.Notes.{SameNotes};
ghost use Rattle.co_mutex.specs.Places.{Holds};
ghost use Rattle.co_mutex.specs.Passes.{IsPassOf, built_of, known};
ghost use Rattle.co_mutex.specs.Calls.{Unlocks, UnlockSteps};

use crate::ids::co_of;
use crate::lock::{CoMutex, Guard, Pass};
use crate::rule::LockRule;
use co_state::CoId;
use std::sync::Wait;

impl<P: LockRule> CoMutex<P> {
    /// Gives the lock up and leaves the guard's value in it. Where others want it, the first of the waiters is granted the
    /// lock, and its coroutine is named, which the caller is to wake. Where nobody was pushed yet, the hand-off is published
    /// to those who are counted, and nobody is named. The caller has left the notes of all other passes as it found them.
    pub fn unlock<R: Wait>(&self, rt: &R, pass: &mut Pass<P>, guard: Guard<P>) -> Option<CoId>
        requires pass { IsPassOf self.now pass.old }
        requires holds { (known pass.old).place ≡ Holds }
        requires notes { SameNotes P.note (known pass.old).number (value_of (built_of self.now) (known pass.old).seen) guard.value }
        ensures pass { IsPassOf self.now pass.new }
        ensures unlock { Unlocks guard.value (known pass.old) result (known pass.new) }
        ensures steps { UnlockSteps result (known pass.old).did (known pass.new).did }
    {
        let Guard { value } = guard;
        if self.give_value(pass, value) == 1 {
            return None;
        }
        let mut list = self.take_list(pass);
        for _ in rt.forever() {
            let Some(q) = list.take_first() else {
                let head = self.swap_head(pass);
                if head == 0 {
                    if !self.offer(pass, list) {
                        return None;
                    }
                    list = self.take_list(pass);
                    continue;
                }
                self.walk(rt, pass, &mut list, head);
                continue;
            };
            return Some(co_of(self.grant(pass, q, list)));
        }
        unreachable!()
    }
}
