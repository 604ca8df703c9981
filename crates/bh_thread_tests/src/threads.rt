//! Seats in threads of their own.
ghost use Rattle.std.specs.Prelude.{◌≡◌, ◌<◌, ◌≤◌, ◌+◌, IfOk, IfSome};
ghost use Rattle.std.specs.Thread.{IsSync};
ghost use Rattle.aio_core.specs.Known.{empty_stage};
ghost use Rattle.aio_core.specs.Calls.{IsSeatOf, IsReady};
ghost use Rattle.aio_bh.specs.Ready.{ComesBack};

use aio_bh::BottomHalves;
use aio_core::{BuildRefusal, Built, Home, LoopTable, Seat};
use std::process::Abort;
use std::sync::Wait;
use std::test::Fail;
use std::thread::{Threads, join};

const HANDLES: u32 = 64;

/// Schedules and cancels, over and over.
fn work<R: Wait>(rt: &R, table: &LoopTable<u64>, seat: Seat<u64>, salt: u32) -> Seat<u64>
    requires ready { IsReady table.now seat }
    requires handles { table.now.sizes.handles ≡ 64 }
    requires salt { salt < 64 }
    ensures { ComesBack table.now seat result }
{
    let mut seat = seat;
    for turn in 0..10_000u32 {
        let bh = (turn * 7 + salt) % HANDLES;
        table.schedule(rt, &mut seat, bh);
        table.cancel(&mut seat, bh);
    }
    seat
}

/// Two seats at work at once.
fn both_work<R: Threads + Wait + Sync>(
    rt: &R,
    table: &LoopTable<u64>,
    first: Seat<u64>,
    second: Seat<u64>,
    salt: u32,
) -> (Seat<u64>, Seat<u64>)
    requires first { IsReady table.now first }
    requires second { IsReady table.now second }
    requires handles { table.now.sizes.handles ≡ 64 }
    requires salt { salt < 32 }
    ensures first { ComesBack table.now first result.0 }
    ensures second { ComesBack table.now second result.1 }
{
    join(
        rt,
        || -> Seat<u64>
            requires { IsReady table.now first × (table.now.sizes.handles ≡ 64) × (salt < 32) }
            ensures { ComesBack table.entry.now first result }
        { work(rt, table, first, salt) },
        || -> Seat<u64>
            requires { IsReady table.now second × (table.now.sizes.handles ≡ 64) × (salt < 32) }
            ensures { ComesBack table.entry.now second result }
        { work(rt, table, second, salt + 32) },
    )
}

/// Halves of halves of the numbers at work at once, and together again.
fn all_work<R: Threads + Wait + Sync>(
    rt: &R,
    table: &LoopTable<u64>,
    seat: Seat<u64>,
) -> Option<Seat<u64>>
    requires seat { IsReady table.now seat }
    requires numbers { (seat.known.first ≡ 0) × (seat.known.count ≡ 64) }
    requires handles { table.now.sizes.handles ≡ 64 }
    ensures { IfSome result (λ all. ComesBack table.now seat all) }
{
    let mut first = seat;
    let mut third = table.split(&mut first)?;
    let second = table.split(&mut first)?;
    let fourth = table.split(&mut third)?;
    let (low, high) = join(
        rt,
        || -> (Seat<u64>, Seat<u64>)
            requires { IsReady table.now first × IsReady table.now second × (table.now.sizes.handles ≡ 64) }
            ensures { ComesBack table.entry.now first result.0 × ComesBack table.entry.now second result.1 }
        { both_work(rt, table, first, second, 3) },
        || -> (Seat<u64>, Seat<u64>)
            requires { IsReady table.now third × IsReady table.now fourth × (table.now.sizes.handles ≡ 64) }
            ensures { ComesBack table.entry.now third result.0 × ComesBack table.entry.now fourth result.1 }
        { both_work(rt, table, third, fourth, 17) },
    );
    let (mut first, second) = low;
    let (mut third, fourth) = high;
    table.join(&mut first, second);
    table.join(&mut third, fourth);
    table.join(&mut first, third);
    Some(first)
}

/// How often each handle stands in the list that home takes.
fn times_taken(table: &LoopTable<u64>, home: &mut Home<u64>) -> [u32; 64]
    requires home { IsSeatOf table.now home.old.seat }
    requires empty { home.old.seat.known.stage ≡ empty_stage }
{
    let mut times = [0u32; 64];
    table.take(home);
    for _ in 0..u64::MAX {
        let Some(next) = table.dequeue_next(home) else {
            break;
        };
        if let Some(place) = times.get_mut(next.bh as usize) {
            *place = place.saturating_add(1);
        }
    }
    times
}

#[test]
fn each_announced_handle_stands_once_in_the_list(rt: HostRuntime) -> Result<(), Fail> {
    let Ok(built) = LoopTable::<u64>::build(rt.alloc(), HANDLES, 0, 0) else {
        return Err(Fail::from("no memory"));
    };
    let Built {
        table,
        mut home,
        seat,
    } = built;
    let Some(all) = all_work(&rt, &table, seat) else {
        return Err(Fail::from("a seat has one number"));
    };
    assert_eq!(rt; (all.first(), all.count()), (0, 64));
    assert_eq!(rt; times_taken(&table, &mut home), [1; 64]);
    Ok(())
}

#[test]
fn halves_of_the_numbers(rt: HostRuntime) -> Result<(), Fail> {
    let Ok(built) = LoopTable::<()>::build(rt.alloc(), 1, 0, 0) else {
        return Err(Fail::from("no memory"));
    };
    let Built {
        table,
        mut home,
        mut seat,
    } = built;
    let Some(other) = table.split(&mut seat) else {
        return Err(Fail::from("64 numbers are not split"));
    };
    assert_eq!(rt; (seat.first(), seat.count()), (0, 32));
    assert_eq!(rt; (other.first(), other.count()), (32, 32));
    let none = table.split(&mut home.seat);
    assert!(rt; none.is_none());
    Ok(())
}
