//! What handlers and timers may do in a turn.
use crate::notes::Entry;
use crate::parts::Parts;
use crate::responder::Responder;
use crate::rig::Rig;
use aio_bh::LotBuilt;
use aio_loop::{AioLoop, Turned};
use aio_notify::LoopEvents;
use aio_words::StepClock;
use std::process::Abort;
use std::test::Fail;

const PROGRESS: Turned = Turned {
    progress: true,
    slept: false,
};

const IDLE: Turned = Turned {
    progress: false,
    slept: false,
};

/// Both events are set, and the first handler removes the second: it isn't called, and its event stays set, for the handler that is
/// added next. There is room for that one.
#[test]
fn a_handler_removes_one_that_is_ready(rt: HostRuntime) -> Result<(), Fail> {
    let Parts {
        table,
        home,
        mut seat,
        lots,
        mut side,
        timer,
    } = Parts::build(&rt, rt.alloc())?;
    let LotBuilt {
        pool,
        home: lot_pass,
        pass: _,
    } = lots;
    let (Ok(_), Ok(second)) = (side.handlers.add(0, 9), side.handlers.add(1, 8)) else {
        return Err(Fail::from("no room"));
    };
    table.set_event(&mut seat, 0);
    table.set_event(&mut seat, 1);
    let mut responder = Responder::idle(&rt, timer);
    responder.removes = Some(second);
    let mut rig = Rig {
        home_loop: AioLoop {
            table: &table,
            pool: &pool,
            lot_pass,
            home,
            side,
        },
        responder,
        clock: StepClock { now: 5 },
    };
    assert_eq!(rt; rig.turn(true), PROGRESS);
    assert_eq!(rt;
        rig.entries(),
        [Entry::Handler(9), Entry::None, Entry::None, Entry::None]
    );
    assert!(rt; rig.add_handler(1, 7));
    assert_eq!(rt; rig.turn(true), PROGRESS);
    assert_eq!(rt;
        rig.entries(),
        [
            Entry::Handler(9),
            Entry::Handler(7),
            Entry::None,
            Entry::None
        ]
    );
    Ok(())
}

/// A timer that arms itself for now is called once in this turn, and once more in the next.
#[test]
fn a_timer_arms_itself_for_now(rt: HostRuntime) -> Result<(), Fail> {
    let Parts {
        table,
        home,
        seat: _,
        lots,
        mut side,
        timer,
    } = Parts::build(&rt, rt.alloc())?;
    let LotBuilt {
        pool,
        home: lot_pass,
        pass: _,
    } = lots;
    side.timers.arm(timer, 5);
    let mut responder = Responder::idle(&rt, timer);
    responder.arms_for = Some(5);
    let mut rig = Rig {
        home_loop: AioLoop {
            table: &table,
            pool: &pool,
            lot_pass,
            home,
            side,
        },
        responder,
        clock: StepClock { now: 5 },
    };
    assert_eq!(rt; rig.turn(true), PROGRESS);
    assert_eq!(rt;
        rig.entries(),
        [Entry::Timer(0), Entry::None, Entry::None, Entry::None]
    );
    assert_eq!(rt; rig.turn(true), PROGRESS);
    assert_eq!(rt;
        rig.entries(),
        [Entry::Timer(0), Entry::Timer(0), Entry::None, Entry::None]
    );
    assert_eq!(rt; rig.turn(false), IDLE);
    Ok(())
}

/// A bottom half that a handler schedules is called in the next turn, which doesn't sleep.
#[test]
fn a_handler_schedules_for_the_next_turn(rt: HostRuntime) -> Result<(), Fail> {
    let Parts {
        table,
        home,
        mut seat,
        lots,
        mut side,
        timer,
    } = Parts::build(&rt, rt.alloc())?;
    let LotBuilt {
        pool,
        home: lot_pass,
        pass: _,
    } = lots;
    let Ok(_) = side.handlers.add(0, 9) else {
        return Err(Fail::from("no room"));
    };
    table.set_event(&mut seat, 0);
    let mut responder = Responder::idle(&rt, timer);
    responder.schedules = true;
    let mut rig = Rig {
        home_loop: AioLoop {
            table: &table,
            pool: &pool,
            lot_pass,
            home,
            side,
        },
        responder,
        clock: StepClock { now: 5 },
    };
    assert_eq!(rt; rig.turn(true), PROGRESS);
    assert_eq!(rt;
        rig.entries(),
        [Entry::Handler(9), Entry::None, Entry::None, Entry::None]
    );
    assert_eq!(rt; rig.turn(true), PROGRESS);
    assert_eq!(rt;
        rig.entries(),
        [
            Entry::Handler(9),
            Entry::Bottom(0),
            Entry::None,
            Entry::None
        ]
    );
    Ok(())
}
