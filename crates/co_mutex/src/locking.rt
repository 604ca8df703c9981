//! Locking, as qemu_co_mutex_lock of QEMU's util/qemu-coroutine-lock.c, but without spinning, and in two calls: after
//! `begin_lock` the pass is counted, and `finish_lock` pushes it. Who waits has a grant word of its own, by which `resumed`
//! finds that it was granted the lock.
ghost use Rattle.std.specs.Prelude.{◌≡◌, ◌≢◌, ℕ, Some, None, MatchResult, List, [], ◌∷◌};
ghost use Rattle.aio_model.specs.Lock.History.{Got};
ghost use Rattle.co_mutex.specs.LockWords.{locked_at};
ghost use Rattle.co_mutex.specs.Places.{AtRest, Counted, Named, Pushed, Queued};
ghost use Rattle.co_mutex.specs.Known.{LockedCompare, moves};
ghost use Rattle.co_mutex.specs.Plays.{done};
ghost use Rattle.co_mutex.specs.Passes.{IsOf, IsPassOf, built_of, known, carried};
ghost use Rattle.co_mutex.specs.Waking.{PushedFor};
ghost use Rattle.co_mutex.specs.Calls.{HoldsNow, BeginsLock, ResumesLock};

use crate::answers::{Begun, Lock};
use crate::lock::{Busy, CoMutex, Guard, Pass, Waiting};
use crate::rule::LockRule;

impl<P: LockRule> CoMutex<P> {
    /// Takes the lock if it is free, by one atomic compare and exchange. Busy leaves all as it was. Any thread, with a pass
    /// of its own that neither holds nor waits.
    pub fn try_lock(&self, pass: &mut Pass<P>) -> Result<Guard<P>, Busy>
        requires pass { IsPassOf self.now pass.old }
        requires rest { (known pass.old).place ≡ AtRest }
        ensures pass { IsPassOf self.now pass.new }
        ensures lock { MatchResult result
            (λ guard. HoldsNow P.note (built_of self.now) (Got (known pass.old).number ∷ []) guard.value (known pass.old) (known pass.new) × ((known pass.new).did ≡ done LockedCompare locked_at 0 ∷ (known pass.old).did))
            (λ busy. (busy.locked ≢ 0) × (known pass.new ≡ moves (known pass.old) AtRest (done LockedCompare locked_at busy.locked))) }
    {
        let found = self.compare_locked(pass);
        if found != 0 {
            return Err(Busy { locked: found });
        }
        let value = self.take_value(pass);
        Ok(Guard { value })
    }

    /// Takes the lock if it is free, and counts the pass among those who want it if it isn't: an atomic compare and exchange,
    /// and a fetch and add. After `Later` the pass has still to be queued by `finish_lock`: until then, and longer, an unlock
    /// may leave the lock to it.
    pub fn begin_lock(&self, pass: &mut Pass<P>) -> Begun<P>
        requires pass { IsPassOf self.now pass.old }
        requires rest { (known pass.old).place ≡ AtRest }
        ensures pass { IsPassOf self.now pass.new }
        ensures lock { BeginsLock P.note (built_of self.now) (known pass.old) result (known pass.new) }
    {
        if self.compare_locked(pass) == 0 {
            let value = self.take_value(pass);
            return Begun::Held(Guard { value });
        }
        if self.add_locked(pass) == 0 {
            let value = self.take_value(pass);
            return Begun::Held(Guard { value });
        }
        let number = pass.number;
        Begun::Later(Waiting { number })
    }

    /// What a queued coroutine does when it is resumed: one atomic swap of its pass's grant word. It holds exactly where that
    /// found that it was granted the lock; else it stays queued and sleeps on.
    pub fn resumed(&self, pass: &mut Pass<P>) -> Lock<P>
        requires pass { IsPassOf self.now pass.old }
        requires queued { (known pass.old).place ≡ Queued }
        ensures pass { IsPassOf self.now pass.new }
        ensures lock { ResumesLock P.note (built_of self.now) (known pass.old) result (known pass.new) }
    {
        if self.swap_grant(pass) == 1 {
            let value = self.take_value(pass);
            return Lock::Held(Guard { value });
        }
        Lock::Queued(None)
    }
}
