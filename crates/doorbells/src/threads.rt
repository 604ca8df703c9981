//! Rings from two threads.
ghost use Rattle.std.specs.Prelude.{◌≡◌, ◌<◌, ◌≤◌, ◌+◌, MatchOption};
ghost use Rattle.std.specs.Thread.{IsSync};
ghost use Rattle.aio_bh.specs.OneShots.{ServesHome};
ghost use Rattle.doorbells.specs.Responding.{AreFit};
ghost use Rattle.doorbells.specs.Rings.{Rings, RingsTwice};
ghost use Rattle.doorbells.specs.Answering.{IsHomeReady, RingsAndAnswers};
ghost use Rattle.aio_core.specs.Calls.{IsReady};

use crate::devices::Devices;
use crate::polling::answer;
use crate::ringing::ring;
use aio_bh::LotBuilt;
use aio_core::{Home, LoopTable, Seat};
use aio_model::Flags;
use std::sync::Wait;
use std::thread::{Threads, join};

/// The flags that each of two rings found.
#[derive(Clone, Copy)]
pub struct Rung {
    pub low: Flags,
    pub high: Flags,
}

/// A ring with a seat that a thread owns.
fn ring_with<R: Wait>(rt: &R, table: &LoopTable<()>, seat: Seat<()>, bell: u32) -> (Seat<()>, Flags)
    requires seat { IsReady table.now seat }
    requires handle { bell < table.now.sizes.handles }
    ensures { Rings table.now bell result.1 seat result.0 }
{
    let mut seat = seat;
    let found = ring(rt, table, &mut seat, bell);
    (seat, found)
}

/// Rings with two seats at once, each in a thread.
fn ring_both<R: Threads + Wait + Sync>(
    rt: &R,
    table: &LoopTable<()>,
    first: Seat<()>,
    second: Seat<()>,
    low: u32,
    high: u32,
) -> ((Seat<()>, Flags), (Seat<()>, Flags))
    requires first { IsReady table.now first }
    requires second { IsReady table.now second }
    requires low { low < table.now.sizes.handles }
    requires high { high < table.now.sizes.handles }
    ensures first { Rings table.now low result.0.1 first result.0.0 }
    ensures second { Rings table.now high result.1.1 second result.1.0 }
{
    join(
        rt,
        || -> (Seat<()>, Flags)
            requires { IsReady table.now first × (low < table.now.sizes.handles) }
            ensures { Rings table.entry.now low result.1 first result.0 }
        { ring_with(rt, table, first, low) },
        || -> (Seat<()>, Flags)
            requires { IsReady table.now second × (high < table.now.sizes.handles) }
            ensures { Rings table.entry.now high result.1 second result.0 }
        { ring_with(rt, table, second, high) },
    )
}

/// Rings two doorbells, which may be the same, from two threads at once: a seat is split off for the second thread, and
/// joined again. The seat comes back with what both did. None where it owns one number, so that nothing can be split off.
pub fn ring_from_two<R: Threads + Wait + Sync>(
    rt: &R,
    table: &LoopTable<()>,
    seat: Seat<()>,
    low: u32,
    high: u32,
) -> (Seat<()>, Option<Rung>)
    requires seat { IsReady table.now seat }
    requires numbers { seat.known.first + seat.known.count ≤ 64 }
    requires low { low < table.now.sizes.handles }
    requires high { high < table.now.sizes.handles }
    ensures { MatchOption result.1 ((seat.known.count ≡ 1) × (result.0 ≡ seat)) (λ rung. RingsTwice table.now low high rung.low rung.high seat result.0) }
{
    let mut first = seat;
    let Some(second) = table.split(&mut first) else {
        return (first, None);
    };
    let ((first, found_low), (second, found_high)) = ring_both(rt, table, first, second, low, high);
    let mut first = first;
    table.join(&mut first, second);
    let rung = Rung {
        low: found_low,
        high: found_high,
    };
    (first, Some(rung))
}

/// Rings two doorbells from two threads, and then answers by one poll: each whose ring was new is answered once, where the
/// poll's take found what the threads' seat has seen.
pub fn ring_from_two_and_answer<R: Threads + Wait + Sync>(
    rt: &R,
    table: &LoopTable<()>,
    lots: &mut LotBuilt,
    home: &mut Home<()>,
    seat: Seat<()>,
    devices: &mut Devices<R>,
    low: u32,
    high: u32,
) -> (Seat<()>, Option<Rung>)
    requires lots { ServesHome table.now.sizes lots.old.pool lots.old.home }
    requires home { IsHomeReady table.now home.old.seat }
    requires seat { IsReady table.now seat }
    requires numbers { seat.known.first + seat.known.count ≤ 64 }
    requires devices { AreFit table.now.sizes.handles devices.old.answered.items devices.old.to }
    requires low { low < table.now.sizes.handles }
    requires high { high < table.now.sizes.handles }
    ensures lots { ServesHome table.now.sizes lots.new.pool lots.new.home }
    ensures home { IsHomeReady table.now home.new.seat }
    ensures devices { AreFit table.now.sizes.handles devices.new.answered.items devices.new.to × (devices.new.to ≡ devices.old.to) }
    ensures rung { MatchOption result.1 ((seat.known.count ≡ 1) × (result.0 ≡ seat)) (λ rung. RingsAndAnswers table.now low high rung.low rung.high devices.old.to seat result.0 home.old.seat.known.seen home.new.seat.known.seen (record { answered = devices.old.answered.items; passed_on = devices.old.passed_on }) (record { answered = devices.new.answered.items; passed_on = devices.new.passed_on })) }
{
    let rung = ring_from_two(rt, table, seat, low, high);
    answer(table, lots, home, devices);
    rung
}
