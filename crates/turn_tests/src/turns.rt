//! Turns, beside what each is to call.
use crate::notes::{Entry, Notes};
use aio_bh::{BottomHalves, LotBuilt, LotPool};
use aio_core::{Built, LoopTable};
use aio_loop::{AioLoop, Handlers, Side, Timers};
use aio_notify::LoopEvents;
use aio_words::StepClock;
use std::process::Abort;
use std::test::Fail;

/// A bottom half, a handler and a timer are called in this order, and the next turn is idle.
#[test]
fn calls_in_order(rt: HostRuntime) -> Result<(), Fail> {
    let Ok(
        Built {
            table,
            home,
            mut seat,
        },
    ) = LoopTable::<u64>::build(rt.alloc(), 1, 0, 1)
    else {
        return Err(Fail::from("no memory"));
    };
    let Ok(
        LotBuilt {
            pool,
            home: lot_pass,
            pass: _,
        },
    ) = LotPool::build(&rt, rt.alloc(), 1, 0)
    else {
        return Err(Fail::from("no memory"));
    };
    let (Ok(mut handlers), Ok(mut timers)) = (
        Handlers::build(rt.alloc(), 1),
        Timers::build(rt.alloc(), 1),
    ) else {
        return Err(Fail::from("no memory"));
    };
    let (Ok(_), Some(timer)) = (handlers.add(0, 9), timers.add()) else {
        return Err(Fail::from("no room"));
    };
    timers.arm(timer, 5);
    table.schedule(&rt, &mut seat, 0);
    table.set_event(&mut seat, 0);
    let mut home_loop = AioLoop {
        table: &table,
        pool: &pool,
        lot_pass,
        home,
        side: Side { handlers, timers },
    };
    let mut notes = Notes::none();
    let mut clock = StepClock { now: 5 };
    let turned = home_loop.turn(&rt, &mut notes, &mut clock, true);
    assert_eq!(rt; (turned.progress, turned.slept), (true, false));
    assert_eq!(rt;
        notes.entries,
        [
            Entry::Bottom(0),
            Entry::Handler(9),
            Entry::Timer(0),
            Entry::None
        ]
    );
    let again = home_loop.turn(&rt, &mut notes, &mut clock, false);
    assert_eq!(rt;
        (again.progress, again.slept, notes.count),
        (false, false, 3)
    );
    Ok(())
}

/// A turn that is to block, with nothing but a timer that expires later, sleeps until then on its clock.
#[test]
fn sleeps_until_its_timer(rt: HostRuntime) -> Result<(), Fail> {
    let Ok(
        Built {
            table,
            home,
            seat: _,
        },
    ) = LoopTable::<u64>::build(rt.alloc(), 1, 0, 1)
    else {
        return Err(Fail::from("no memory"));
    };
    let Ok(
        LotBuilt {
            pool,
            home: lot_pass,
            pass: _,
        },
    ) = LotPool::build(&rt, rt.alloc(), 1, 0)
    else {
        return Err(Fail::from("no memory"));
    };
    let (Ok(handlers), Ok(mut timers)) = (
        Handlers::build(rt.alloc(), 1),
        Timers::build(rt.alloc(), 1),
    ) else {
        return Err(Fail::from("no memory"));
    };
    let Some(timer) = timers.add() else {
        return Err(Fail::from("no room"));
    };
    timers.arm(timer, 50);
    let mut home_loop = AioLoop {
        table: &table,
        pool: &pool,
        lot_pass,
        home,
        side: Side { handlers, timers },
    };
    let mut notes = Notes::none();
    let mut clock = StepClock { now: 5 };
    let early = home_loop.turn(&rt, &mut notes, &mut clock, false);
    assert_eq!(rt; (early.progress, early.slept, clock.now), (false, false, 5));
    let turned = home_loop.turn(&rt, &mut notes, &mut clock, true);
    assert_eq!(rt;
        (turned.progress, turned.slept, clock.now),
        (true, true, 50)
    );
    assert_eq!(rt; (notes.entries[0], notes.count), (Entry::Timer(0), 1));
    Ok(())
}
