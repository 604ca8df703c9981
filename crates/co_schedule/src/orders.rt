//! Every order of the steps of a schedule against those of a home that takes and begins, on one thread. Each step has a type of its
//! own, which says where its seat stands.
ghost use Rattle.std.specs.Prelude.{◌≡◌, ◌<◌, [], ◌+◌};
ghost use Rattle.co_schedule.specs.Calls.{IsSeatOf};

mod homing;
mod order;
mod scheduler;
mod wake;

use crate::built::CoBuilt;
use crate::homes::CoHome;
use crate::orders::homing::{Homing, ToSwap};
use crate::orders::order::Order;
use crate::orders::scheduler::{Scheduler, ToMark};
use crate::orders::wake::Sleeper;
use crate::runs::CoRun;
use crate::seat::CoSeat;
use crate::table::CoTable;
use aio_model::Cause;
use std::alloc::Global;
use std::process::Abort;
use std::sync::Wait;
use std::test::Fail;

/// How many steps the two have at most: a schedule 7, since one try to push may miss, and a take of two and their begins 7.
const STEPS: u32 = 14;

/// How many steps home has that takes one and begins it.
const ONE: u32 = 4;

/// The coroutines that home began, in order.
#[derive(Clone, Copy, Debug, PartialEq, Eq)]
struct Begun {
    first: Option<u32>,
    second: Option<u32>,
}

impl Begun {
    fn note(&mut self, co: Option<u32>) {
        if self.first.is_none() {
            self.first = co;
        } else if co.is_some() {
            self.second = co;
        }
    }
}

/// What a schedule came to, beside a home that takes and begins a coroutine that was pushed before.
#[derive(Clone, Copy, Debug, PartialEq, Eq)]
enum End {
    /// It found the mark of the one before.
    Refused,
    /// Home took what it pushed with its first take.
    Together,
    /// With its second.
    Apart,
}

/// How many orders ended so.
#[derive(Clone, Copy, Debug, PartialEq, Eq)]
struct Ends {
    refused: u64,
    together: u64,
    apart: u64,
}

impl Ends {
    fn note(&mut self, end: End) {
        match end {
            End::Refused => self.refused = self.refused.wrapping_add(1),
            End::Together => self.together = self.together.wrapping_add(1),
            End::Apart => self.apart = self.apart.wrapping_add(1),
        }
    }
}

/// Coroutine 0 was pushed by the seat whose mark is 1. What the other one's schedule came to, and what home began by its first take and
/// by both.
fn ended<R: Abort>(rt: &R, scheduler: &Scheduler, co: u32, early: Begun, all: Begun) -> End {
    assert_eq!(rt; early.first, Some(0));
    assert_eq!(rt; all.first, Some(0));
    match scheduler {
        Scheduler::Refused(mark) => {
            assert_eq!(rt; *mark, 1);
            assert_eq!(rt; all.second, None);
            End::Refused
        }
        Scheduler::Pushed => {
            assert_eq!(rt; all.second, Some(co));
            if early.second.is_some() {
                End::Together
            } else {
                End::Apart
            }
        }
        _ => panic!(rt; "the schedule has not ended"),
    }
}

/// One order of the steps. Home takes once more when both have ended.
fn play<R: Abort>(rt: &R, scheduler: Scheduler, homing: Homing, co: u32, order: &mut Order) -> End {
    let mut scheduler = scheduler;
    let mut homing = homing;
    let mut has_home_ended = false;
    let mut begun = Begun {
        first: None,
        second: None,
    };
    for _ in 0..STEPS {
        if !scheduler.has_ended() && (has_home_ended || !order.is_others()) {
            scheduler = scheduler.step();
        } else if !has_home_ended {
            begun.note(homing.enters());
            homing = homing.step();
            has_home_ended = homing.rests();
        }
    }
    let early = begun;
    for _ in 0..ONE {
        begun.note(homing.enters());
        homing = homing.step();
    }
    ended(rt, &scheduler, co, early, begun)
}

/// One order, with a table of its own.
fn try_order<R: Wait + Abort>(
    rt: &R,
    alloc: Global,
    co: u32,
    order: &mut Order,
) -> Result<End, Fail>
    requires { co < 2 }
{
    let Ok(
        CoBuilt {
            table,
            home,
            mut seat,
        },
    ) = CoTable::<Sleeper>::build(alloc, 2)
    else {
        return Err(Fail::from("no memory"));
    };
    let Ok(run) = CoRun::build(alloc, 2) else {
        return Err(Fail::from("no memory"));
    };
    let pushed = table.schedule(rt, &mut seat, 0, Cause::Wake, None);
    assert!(rt; pushed.is_ok());
    let CoSeat {
        inner,
        first,
        count: _,
    } = seat;
    let scheduler = Scheduler::Marks(ToMark {
        table: &table,
        inner,
        co,
        own: u64::from(first) + 1,
    });
    let CoHome { inner, states: _ } = home;
    let homing = Homing::Swaps(ToSwap {
        table: &table,
        inner,
        run,
    });
    Ok(play(rt, scheduler, homing, co, order))
}

/// Every order of a schedule of this coroutine.
fn try_orders<R: Wait + Abort>(rt: &R, alloc: Global, co: u32) -> Result<Ends, Fail>
    requires { co < 2 }
{
    let mut order = Order::first();
    let mut ends = Ends {
        refused: 0,
        together: 0,
        apart: 0,
    };
    for _ in 0..u64::MAX {
        ends.note(try_order(rt, alloc, co, &mut order)?);
        if !order.advance() {
            break;
        }
    }
    Ok(ends)
}

#[test]
fn no_order_of_a_schedule_and_a_take_loses_a_coroutine(rt: HostRuntime) -> Result<(), Fail> {
    let other = try_orders(&rt, rt.alloc(), 1)?;
    let same = try_orders(&rt, rt.alloc(), 0)?;
    println!(rt; "another: {other:?}; the same: {same:?}")?;
    assert!(rt;
        other.refused == 0 && other.together > 0 && other.apart > 0,
        "{other:?}"
    );
    assert!(rt;
        same.refused > 0 && same.together == 0 && same.apart > 0,
        "{same:?}"
    );
    Ok(())
}
