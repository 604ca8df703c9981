//! Timers of those that sleep: coroutine `co` has the timer of number `co`.
ghost use Rattle.std.specs.Prelude.{◌≡◌, ◌<◌, ◌≤◌, length, ℕ, List, slice_index_or, None, Some};
ghost use Rattle.co_loop.specs.Napping.{expiry_after, is_napping, ArmsOne, ArmsEach, bed};

use crate::naps::Nap;
use aio_timers::{TimerId, Timers};

/// When a sleep of so many nanoseconds from now ends. A time past the greatest `i64` counts as that.
fn expiry_after(now: u64, ns: u64) -> i64
    ensures { result ≡ expiry_after now ns }
{
    now.saturating_add(ns).min(i64::MAX as u64) as i64
}

/// Arms the timer of a coroutine that asked to sleep.
fn arm_one(naps: &mut Vec<Nap>, timers: &mut Timers, now: u64, co: u32)
    requires below { co < length naps.old.items }
    requires made { co < timers.old.made }
    ensures long { length naps.new.items ≡ length naps.old.items }
    ensures made { timers.new.made ≡ timers.old.made }
    ensures room { timers.new.room ≡ timers.old.room }
    ensures arms { ArmsOne now co (bed naps.old.items timers.old) (bed naps.new.items timers.new) }
{
    if let Nap::Asked(ns) = naps[co as usize] {
        timers.arm(TimerId { number: co }, expiry_after(now, ns));
        naps[co as usize] = Nap::Armed;
    }
}

/// Arms the timers of all that asked to sleep.
pub(crate) fn arm_all(naps: &mut Vec<Nap>, timers: &mut Timers, now: u64, coroutines: u32)
    requires below { length naps.old.items ≡ coroutines }
    requires made { coroutines ≤ timers.old.made }
    ensures long { length naps.new.items ≡ coroutines }
    ensures made { timers.new.made ≡ timers.old.made }
    ensures room { timers.new.room ≡ timers.old.room }
    ensures arms { ArmsEach now coroutines (bed naps.old.items timers.old) (bed naps.new.items timers.new) }
{
    for co in 0..coroutines {
        arm_one(naps, timers, now, co);
    }
}

/// Whether the coroutine sleeps until the timer of its number expires.
pub(crate) fn is_napping(naps: &[Nap], co: u32) -> bool
    ensures { result ≡ is_napping naps.now co }
{
    match naps.get(co as usize) {
        Some(Nap::Armed) => true,
        _ => false,
    }
}
