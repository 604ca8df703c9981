//! A pass that does as it is told.
ghost use Rattle.std.specs.Prelude.{◌≡◌};
ghost use Rattle.co_mutex.specs.Places.{AtRest, Counted, Queued, Holds};
ghost use Rattle.co_mutex.specs.Passes.{IsPassOf, known};
ghost use Rattle.lock_tests.specs.Hands.{place_at, number_at};

use crate::hand::{Answer, Hand, Turn};
use crate::number::Number;
use co_mutex::{Begun, CoMutex, Guard, Lock, Pass, Waiting};
use co_state::CoId;
use std::sync::Wait;

/// A pass and what it has, and its coroutine.
pub struct Player {
    pub pass: Pass<Number>,
    pub hand: Hand,
    pub co: CoId,
    ghost place: { (known pass).place ≡ place_at hand },
    ghost number: { (known pass).number ≡ number_at hand (known pass).number },
}

fn held(mut guard: Guard<Number>) -> (Hand, Answer)
    ensures { place_at result.0 ≡ Holds }
{
    let value = *guard.value();
    (Hand::Holds(guard), Answer::Held(value))
}

fn try_lock(lock: &CoMutex<Number>, pass: &mut Pass<Number>) -> (Hand, Answer)
    requires pass { IsPassOf lock.now pass.old }
    requires rest { (known pass.old).place ≡ AtRest }
    ensures pass { IsPassOf lock.now pass.new }
    ensures same { (known pass.new).number ≡ (known pass.old).number }
    ensures place { (known pass.new).place ≡ place_at result.0 }
    ensures number { (known pass.new).number ≡ number_at result.0 (known pass.new).number }
{
    match lock.try_lock(pass) {
        Ok(guard) => held(guard),
        Err(busy) => (Hand::Rests, Answer::Busy(busy.locked)),
    }
}

fn begin_lock(lock: &CoMutex<Number>, pass: &mut Pass<Number>) -> (Hand, Answer)
    requires pass { IsPassOf lock.now pass.old }
    requires rest { (known pass.old).place ≡ AtRest }
    ensures pass { IsPassOf lock.now pass.new }
    ensures same { (known pass.new).number ≡ (known pass.old).number }
    ensures place { (known pass.new).place ≡ place_at result.0 }
    ensures number { (known pass.new).number ≡ number_at result.0 (known pass.new).number }
{
    match lock.begin_lock(pass) {
        Begun::Held(guard) => held(guard),
        Begun::Later(waiting) => (Hand::Counted(waiting), Answer::Later),
    }
}

fn finish_lock<R: Wait>(
    rt: &R,
    lock: &CoMutex<Number>,
    pass: &mut Pass<Number>,
    waiting: Waiting,
    co: CoId,
) -> (Hand, Answer)
    requires pass { IsPassOf lock.now pass.old }
    requires counted { (known pass.old).place ≡ Counted }
    requires waiting { waiting.number ≡ (known pass.old).number }
    ensures pass { IsPassOf lock.now pass.new }
    ensures same { (known pass.new).number ≡ (known pass.old).number }
    ensures place { (known pass.new).place ≡ place_at result.0 }
    ensures number { (known pass.new).number ≡ number_at result.0 (known pass.new).number }
{
    match lock.finish_lock(rt, pass, waiting, co) {
        Lock::Held(guard) => held(guard),
        Lock::Queued(named) => (Hand::Queued, Answer::Queued(named)),
    }
}

fn lock_or_queue<R: Wait>(
    rt: &R,
    lock: &CoMutex<Number>,
    pass: &mut Pass<Number>,
    co: CoId,
) -> (Hand, Answer)
    requires pass { IsPassOf lock.now pass.old }
    requires rest { (known pass.old).place ≡ AtRest }
    ensures pass { IsPassOf lock.now pass.new }
    ensures same { (known pass.new).number ≡ (known pass.old).number }
    ensures place { (known pass.new).place ≡ place_at result.0 }
    ensures number { (known pass.new).number ≡ number_at result.0 (known pass.new).number }
{
    match lock.lock(rt, pass, co) {
        Lock::Held(guard) => held(guard),
        Lock::Queued(named) => (Hand::Queued, Answer::Queued(named)),
    }
}

fn resumed(lock: &CoMutex<Number>, pass: &mut Pass<Number>) -> (Hand, Answer)
    requires pass { IsPassOf lock.now pass.old }
    requires queued { (known pass.old).place ≡ Queued }
    ensures pass { IsPassOf lock.now pass.new }
    ensures same { (known pass.new).number ≡ (known pass.old).number }
    ensures place { (known pass.new).place ≡ place_at result.0 }
    ensures number { (known pass.new).number ≡ number_at result.0 (known pass.new).number }
{
    match lock.resumed(pass) {
        Lock::Held(guard) => held(guard),
        Lock::Queued(named) => (Hand::Queued, Answer::Queued(named)),
    }
}

fn unlock<R: Wait>(
    rt: &R,
    lock: &CoMutex<Number>,
    pass: &mut Pass<Number>,
    guard: Guard<Number>,
    more: u64,
) -> (Hand, Answer)
    requires pass { IsPassOf lock.now pass.old }
    requires holds { (known pass.old).place ≡ Holds }
    ensures pass { IsPassOf lock.now pass.new }
    ensures same { (known pass.new).number ≡ (known pass.old).number }
    ensures place { (known pass.new).place ≡ place_at result.0 }
    ensures number { (known pass.new).number ≡ number_at result.0 (known pass.new).number }
{
    let mut guard = guard;
    let value = guard.value();
    *value = value.wrapping_add(more);
    let named = lock.unlock(rt, pass, guard);
    (Hand::Rests, Answer::Unlocked(named))
}

impl Player {
    pub fn of(pass: Pass<Number>, co: CoId) -> Player
        requires rest { (known pass).place ≡ AtRest }
        ensures { result.pass ≡ pass }
    {
        Player {
            pass,
            hand: Hand::Rests,
            co,
        }
    }

    /// Makes a call, where the pass may make it.
    pub fn plays<R: Wait>(self, rt: &R, lock: &CoMutex<Number>, turn: Turn) -> (Player, Answer)
        requires pass { IsPassOf lock.now self.pass }
        ensures pass { IsPassOf lock.now result.0.pass }
        ensures same { (known result.0.pass).number ≡ (known self.pass).number }
    {
        let Player { mut pass, hand, co } = self;
        let (hand, answer) = match (turn, hand) {
            (Turn::TryLock, Hand::Rests) => try_lock(lock, &mut pass),
            (Turn::BeginLock, Hand::Rests) => begin_lock(lock, &mut pass),
            (Turn::Lock, Hand::Rests) => lock_or_queue(rt, lock, &mut pass, co),
            (Turn::FinishLock, Hand::Counted(waiting)) => {
                finish_lock(rt, lock, &mut pass, waiting, co)
            }
            (Turn::Resumed, Hand::Queued) => resumed(lock, &mut pass),
            (Turn::Unlock(more), Hand::Holds(guard)) => unlock(rt, lock, &mut pass, guard, more),
            (_, hand) => (hand, Answer::OutOfTurn),
        };
        (Player { pass, hand, co }, answer)
    }
}
