//! Every order of the steps of a lock against those of an unlock, on one thread. Each step has a type of its own, which says where
//! its pass stands.
ghost use Rattle.std.specs.Prelude.{◌≡◌};
ghost use Rattle.co_mutex.specs.Places.{AtRest};
ghost use Rattle.co_mutex.specs.Passes.{IsPassOf, known};

mod duty;
mod locker;
mod number;
mod order;
mod unlocker;

use crate::answers::Lock;
use crate::lock::{CoMutex, Guard, Pass};
use crate::orders::locker::{Holds, Locker, ToCompare, Waits};
use crate::orders::number::Number;
use crate::orders::order::Order;
use crate::orders::unlocker::{Rests, Unlocker};
use std::alloc::Global;
use std::process::Abort;
use std::sync::Wait;
use std::test::Fail;

/// How many steps the two have at most: 13 and 9.
const STEPS: u32 = 22;

/// The coroutine for which the second pass locks.
const SECOND: u64 = 1 << 32;

/// How the second pass came to hold the lock.
#[derive(Clone, Copy, Debug, PartialEq, Eq)]
enum End {
    /// It found it free.
    Free,
    /// It took the hand-off.
    Handed,
    /// The unlock found it waiting.
    Granted,
    /// The unlock published the hand-off, and took it back.
    TakenBack,
}

/// How many orders ended so.
#[derive(Clone, Copy, Debug, PartialEq, Eq)]
struct Ends {
    free: u64,
    handed: u64,
    granted: u64,
    taken_back: u64,
}

impl Ends {
    fn note(&mut self, end: End) {
        match end {
            End::Free => self.free = self.free.wrapping_add(1),
            End::Handed => self.handed = self.handed.wrapping_add(1),
            End::Granted => self.granted = self.granted.wrapping_add(1),
            End::TakenBack => self.taken_back = self.taken_back.wrapping_add(1),
        }
    }
}

/// The pass holds and finds what the unlock left. It gives the lock up, which is free then.
fn give_up<R: Wait + Abort>(rt: &R, holds: Holds) {
    let Holds {
        lock,
        mut pass,
        value,
    } = holds;
    assert_eq!(rt; value, 7);
    let guard = Guard { value: 11 };
    assert_eq!(rt; lock.unlock(rt, &mut pass, guard), None);
    match lock.try_lock(&mut pass) {
        Ok(Guard { value }) => assert_eq!(rt; value, 11),
        Err(busy) => panic!(rt; "{} want the lock", busy.locked),
    }
}

/// The pass was granted the lock, which its next resume finds.
fn resume<R: Wait + Abort>(rt: &R, waits: Waits) {
    let Waits { lock, mut pass } = waits;
    match lock.resumed(&mut pass) {
        Lock::Held(Guard { value }) => give_up(rt, Holds { lock, pass, value }),
        Lock::Queued(_) => panic!(rt; "the pass was not granted the lock"),
    }
}

/// Whom the unlock named.
fn named_by<R: Abort>(rt: &R, unlocker: Unlocker) -> Option<u64> {
    match unlocker {
        Unlocker::Rests(Rests { named, .. }) => named,
        _unlocker => panic!(rt; "the unlock has not ended"),
    }
}

/// Both have ended. The unlock named the coroutine of the second pass exactly where it granted it.
fn ended<R: Wait + Abort>(rt: &R, locker: Locker, unlocker: Unlocker, is_taken_back: bool) -> End {
    let named = named_by(rt, unlocker);
    match locker {
        Locker::Got(holds) => {
            assert_eq!(rt; named, None);
            give_up(rt, holds);
            End::Free
        }
        Locker::Handed(holds) => {
            assert_eq!(rt; named, None);
            give_up(rt, holds);
            End::Handed
        }
        Locker::Waits(waits) => {
            assert_eq!(rt; named, Some(SECOND));
            resume(rt, waits);
            if is_taken_back {
                End::TakenBack
            } else {
                End::Granted
            }
        }
        _locker => panic!(rt; "the lock has not ended"),
    }
}

/// One order of the steps.
fn play<R: Wait + Abort>(rt: &R, locker: Locker, unlocker: Unlocker, order: &mut Order) -> End {
    let mut locker = locker;
    let mut unlocker = unlocker;
    let mut is_taken_back = false;
    for _ in 0..STEPS {
        if locker.has_ended() || (!unlocker.has_ended() && order.is_others()) {
            let was_to_take_back = unlocker.is_to_take_back();
            unlocker = unlocker.step();
            is_taken_back = is_taken_back || (was_to_take_back && unlocker.is_to_swap_head());
        } else {
            locker = locker.step(SECOND);
        }
    }
    ended(rt, locker, unlocker, is_taken_back)
}

/// The first pass, which holds.
fn holder<'a, R: Abort>(rt: &R, lock: &'a CoMutex<Number>, pass: Pass<Number>) -> Unlocker<'a>
    requires pass { IsPassOf lock.now pass }
    requires rest { (known pass).place ≡ AtRest }
{
    let mut pass = pass;
    match lock.try_lock(&mut pass) {
        Ok(Guard { value }) => Unlocker::Subtracts(Holds { lock, pass, value }),
        Err(busy) => panic!(rt; "{} want the lock", busy.locked),
    }
}

/// One order, with a lock of its own.
fn try_order<R: Wait + Abort>(rt: &R, alloc: Global, order: &mut Order) -> Result<End, Fail> {
    let Ok((lock, mut passes)) = CoMutex::<Number>::build(alloc, 5, 2) else {
        return Err(Fail::from("no memory"));
    };
    let end = match (passes.pop(), passes.pop()) {
        (Some(pass), Some(first)) => {
            let locker = Locker::Compares(ToCompare { lock: &lock, pass });
            play(rt, locker, holder(rt, &lock, first), order)
        }
        _ => panic!(rt; "there are two passes"),
    };
    let CoMutex { table: _ } = lock;
    Ok(end)
}

#[test]
fn no_order_of_a_lock_and_an_unlock_loses_the_lock(rt: HostRuntime) -> Result<(), Fail> {
    let mut order = Order::first();
    let mut ends = Ends {
        free: 0,
        handed: 0,
        granted: 0,
        taken_back: 0,
    };
    for _ in 0..u64::MAX {
        ends.note(try_order(&rt, rt.alloc(), &mut order)?);
        if !order.advance() {
            break;
        }
    }
    println!(rt; "{ends:?}")?;
    assert!(rt;
        ends.free > 0 && ends.handed > 0 && ends.granted > 0 && ends.taken_back > 0,
        "{ends:?}"
    );
    Ok(())
}
