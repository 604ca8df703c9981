//! How a coroutine takes its lock in one resume, or goes on waiting for it.
ghost use Rattle.std.specs.Prelude.{◌≡◌};
ghost use Rattle.co_mutex.specs.Passes.{IsPassOf, built_of, known};
ghost use Rattle.co_mutex.specs.Calls.{co_id_word};
ghost use Rattle.img_streams.specs.Turns.{pass_place_of, Reaches};

use co_mutex::{CoMutex, Lock, LockRule, Pass};
use co_state::CoId;
use std::sync::Wait;

/// Locks, or finds out whether a pass that is queued was granted the lock.
pub(crate) fn reach<P: LockRule, R: Wait>(
    rt: &R,
    lock: &CoMutex<P>,
    pass: &mut Pass<P>,
    queued: bool,
    co: CoId,
) -> Lock<P>
    requires pass { IsPassOf lock.now pass.old }
    requires place { (known pass.old).place ≡ pass_place_of queued }
    ensures pass { IsPassOf lock.now pass.new }
    ensures reaches { Reaches P.note (built_of lock.now) queued (co_id_word co) (known pass.old) result (known pass.new) }
{
    if queued {
        lock.resumed(pass)
    } else {
        lock.lock(rt, pass, co)
    }
}
