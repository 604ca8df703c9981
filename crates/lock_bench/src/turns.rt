//! A pass that locks, adds 1 and unlocks, over and over.
ghost use Rattle.std.specs.Prelude.{◌≡◌};
ghost use Rattle.co_mutex.specs.Places.{AtRest, Queued, Holds};
ghost use Rattle.co_mutex.specs.Passes.{IsPassOf, known};
ghost use Rattle.co_mutex.specs.Decks.{IsResting};

use crate::bells::Bells;
use crate::number::Number;
use co_mutex::{CoMutex, Guard, Lock, Pass};
use co_state::CoId;
use std::sync::Wait;

/// Sleeps until the lock was granted.
fn await_grant<R: Wait>(
    rt: &R,
    lock: &CoMutex<Number>,
    pass: &mut Pass<Number>,
    bells: &Bells,
    co: CoId,
    woken: &mut u64,
) -> Guard<Number>
    requires pass { IsPassOf lock.now pass.old }
    requires queued { (known pass.old).place ≡ Queued }
    ensures pass { IsPassOf lock.now pass.new }
    ensures holds { (known pass.new).place ≡ Holds }
    ensures same { (known pass.new).number ≡ (known pass.old).number }
{
    for _ in rt.forever() {
        bells.sleep(rt, co, *woken);
        *woken = woken.wrapping_add(1);
        match lock.resumed(pass) {
            Lock::Held(guard) => return guard,
            Lock::Queued(_) => (),
        }
    }
    unreachable!()
}

fn take<R: Wait>(
    rt: &R,
    lock: &CoMutex<Number>,
    pass: &mut Pass<Number>,
    bells: &Bells,
    co: CoId,
    woken: &mut u64,
) -> Guard<Number>
    requires pass { IsPassOf lock.now pass.old }
    requires rest { (known pass.old).place ≡ AtRest }
    ensures pass { IsPassOf lock.now pass.new }
    ensures holds { (known pass.new).place ≡ Holds }
    ensures same { (known pass.new).number ≡ (known pass.old).number }
{
    match lock.lock(rt, pass, co) {
        Lock::Held(guard) => guard,
        Lock::Queued(named) => {
            bells.wake(named);
            await_grant(rt, lock, pass, bells, co, woken)
        }
    }
}

/// So many turns of the pass of this number.
pub fn take_turns<R: Wait>(
    rt: &R,
    lock: &CoMutex<Number>,
    pass: Pass<Number>,
    bells: &Bells,
    number: u32,
    turns: u32,
) -> Pass<Number>
    requires pass { IsResting lock.now number pass }
    ensures pass { IsResting lock.now number result }
{
    let co = CoId {
        co: number,
        home: 0,
    };
    let mut pass = pass;
    let mut woken = 0u64;
    for _ in 0..turns {
        let mut guard = take(rt, lock, &mut pass, bells, co, &mut woken);
        let value = guard.value();
        *value = value.wrapping_add(1);
        bells.wake(lock.unlock(rt, &mut pass, guard));
    }
    pass
}
