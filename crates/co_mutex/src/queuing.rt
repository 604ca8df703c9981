//! The second half of a lock: the pass is pushed, and looks at the hand-off.
ghost use Rattle.std.specs.Prelude.{◌≡◌, ◌≢◌, ℕ, Some, None, List, [], ◌∷◌};
ghost use Rattle.co_mutex.specs.Places.{Locking, ToPop, AtRest, Counted, Pushed, Queued, OnDuty};
ghost use Rattle.co_mutex.specs.Rule.{Popped as Listed};
ghost use Rattle.co_mutex.specs.Passes.{IsOf, IsPassOf, built_of, known, carried};
ghost use Rattle.co_mutex.specs.Waking.{PushedFor, LooksAtHandOff, WokePass};
ghost use Rattle.co_mutex.specs.Calls.{co_id_word as number_of, finishes, locks, Did, Finishes, Locks};

use crate::answers::{Begun, Lock};
use crate::ids::{co_of, word_of};
use crate::lock::{CoMutex, Guard, Pass, Waiting};
use crate::rule::LockRule;
use co_state::CoId;
use std::sync::Wait;

impl<P: LockRule> CoMutex<P> {
    /// Stores the coroutine and pushes the pass in front of the list, trying again where another was pushed meanwhile.
    pub(crate) fn push<R: Wait>(&self, rt: &R, pass: &mut Pass<P>, who: u64)
        requires pass { IsOf self.now pass.old }
        requires place { (carried pass.old ≡ []) × ((known pass.old).place ≡ Counted) }
        ensures pass { IsOf self.now pass.new }
        ensures pushed { PushedFor who (known pass.old) pass.new.seat.me }
    {
        self.store_who(pass, who);
        for _ in rt.forever() {
            let head = self.load_head(pass);
            self.store_next(pass, head);
            if self.compare_head(pass, head) == head {
                return;
            }
        }
        unreachable!()
    }

    /// Grants the first waiter, by who took the hand-off: its own pass waits, so that there is one.
    pub(crate) fn wake_one<R: Wait>(&self, rt: &R, pass: &mut Pass<P>) -> (u32, u64)
        requires pass { IsOf self.now pass.old }
        requires duty { (known pass.old).place ≡ OnDuty Locking (ToPop []) }
        requires list { (last : ℕ) × (carried pass.old ≡ (1, Listed [] last) ∷ []) }
        ensures pass { IsOf self.now pass.new }
        ensures woke { WokePass result.0 result.1 (known pass.old) pass.new.seat.me }
    {
        let mut list = self.take_list(pass);
        let head = self.swap_head(pass);
        self.walk(rt, pass, &mut list, head);
        let Some(q) = list.take_first() else {
            unreachable!()
        };
        let who = self.grant(pass, q, list);
        (q, who)
    }

    /// Looks at the hand-off and takes it, if there is one. True where the pass has the duty now.
    pub(crate) fn take_duty(&self, pass: &mut Pass<P>) -> bool
        requires pass { IsOf self.now pass.old }
        requires place { (carried pass.old ≡ []) × ((known pass.old).place ≡ Pushed) }
        ensures pass { IsOf self.now pass.new }
        ensures looked { LooksAtHandOff result (known pass.old) pass.new.seat.me }
    {
        let number = self.load_handoff(pass);
        if number == 0 {
            return false;
        }
        self.take_handoff(pass, number) == number
    }

    /// Queues a pass that `begin_lock` counted: stores the coroutine, pushes the pass and looks at the hand-off. Where that was
    /// published, the call grants the first waiter: the pass itself, which then holds, or another, whose coroutine is named
    /// and is to be woken. The coroutine of a queued pass sleeps, and calls `resumed` when it is woken.
    pub fn finish_lock<R: Wait>(
        &self,
        rt: &R,
        pass: &mut Pass<P>,
        waiting: Waiting,
        co: CoId,
    ) -> Lock<P>
        requires pass { IsPassOf self.now pass.old }
        requires counted { (known pass.old).place ≡ Counted }
        requires waiting { waiting.number ≡ (known pass.old).number }
        ensures pass { IsPassOf self.now pass.new }
        ensures lock { Finishes P.note (built_of self.now) (number_of co) (known pass.old) result (known pass.new) }
        ensures steps { Did finishes (known pass.old).did (known pass.new).did }
    {
        let Waiting { number: _ } = waiting;
        self.push(rt, pass, word_of(co));
        if !self.take_duty(pass) {
            return Lock::Queued(None);
        }
        let (q, who) = self.wake_one(rt, pass);
        if q != pass.number {
            return Lock::Queued(Some(co_of(who)));
        }
        self.swap_own_grant(pass);
        let value = self.take_value(pass);
        Lock::Held(Guard { value })
    }

    /// Takes the lock, or queues the pass for this coroutine: `begin_lock`, and `finish_lock` where the lock wasn't free.
    pub fn lock<R: Wait>(&self, rt: &R, pass: &mut Pass<P>, co: CoId) -> Lock<P>
        requires pass { IsPassOf self.now pass.old }
        requires rest { (known pass.old).place ≡ AtRest }
        ensures pass { IsPassOf self.now pass.new }
        ensures lock { Locks P.note (built_of self.now) (number_of co) (known pass.old) result (known pass.new) }
        ensures steps { Did locks (known pass.old).did (known pass.new).did }
    {
        match self.begin_lock(pass) {
            Begun::Held(guard) => Lock::Held(guard),
            Begun::Later(waiting) => self.finish_lock(rt, pass, waiting, co),
        }
    }
}
