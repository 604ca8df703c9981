//! A home goes to sleep while two seats enqueue, in every order of their steps. It is never committed over a handle that was pushed
//! unless the notifier is set or the handle's seat is still to notify.
ghost use Rattle.std.specs.Prelude.{◌≡◌, ◌<◌, true, None};
ghost use Rattle.aio_core.specs.Known.{is_running};
ghost use Rattle.aio_core.specs.SleepSteps.{is_to_disarm};
ghost use Rattle.aio_core.specs.Calls.{IsSeatOf};

use crate::{Debt, Order, Side, Sides};
use aio_core::{Built, Home, LoopTable};
use std::alloc::Global;
use std::process::Abort;
use std::test::Fail;

/// How many steps the two seats have at most: six each, and two more where a link was missed.
const STEPS: u32 = 14;

/// How many steps of the two seats come before home's scan, between that and its arm, and between that and its test.
type Pauses = (u32, u32, u32);

/// What a home's way to sleep ended with.
#[derive(Clone, Copy)]
enum End {
    Urgent,
    Notified,
    Committed,
}

/// How many orders ended with each.
#[derive(Clone, Copy, Debug)]
struct Ends {
    urgent: u64,
    notified: u64,
    committed: u64,
}

impl Ends {
    fn note(&mut self, end: End) {
        match end {
            End::Urgent => self.urgent = self.urgent.wrapping_add(1),
            End::Notified => self.notified = self.notified.wrapping_add(1),
            End::Committed => self.committed = self.committed.wrapping_add(1),
        }
    }
}

/// The seats do all that is left while home is committed.
fn end_beside_sleep(
    rt: &impl Abort,
    table: &LoopTable<u64>,
    home: &mut Home<u64>,
    sides: Sides,
    order: &mut Order,
) -> Sides
    requires home { IsSeatOf table.now home.old.seat }
    requires committed { is_to_disarm home.old.seat.known.sleep ≡ true }
    requires free { home.old.seat.known.stage.hand ≡ None }
    requires one { IsSeatOf table.now sides.one.seat }
    requires other { IsSeatOf table.now sides.other.seat }
    requires handles { table.now.sizes.handles ≡ 2 }
    ensures home { IsSeatOf table.now home.new.seat }
    ensures committed { is_to_disarm home.new.seat.known.sleep ≡ true }
    ensures free { home.new.seat.known.stage.hand ≡ None }
    ensures one { IsSeatOf table.now result.one.seat }
    ensures other { IsSeatOf table.now result.other.seat }
{
    let mut sides = sides;
    for _ in 0..STEPS {
        let is_set = table.load_notifier(home);
        assert_eq!(rt; is_set, sides.has_one_woken());
        assert!(rt; is_set || !sides.has_one_ended());
        sides = sides.step(table, order);
    }
    sides
}

/// Home's way to sleep.
fn go_to_sleep(
    rt: &impl Abort,
    table: &LoopTable<u64>,
    home: &mut Home<u64>,
    sides: Sides,
    order: &mut Order,
    pauses: Pauses,
) -> (Sides, End)
    requires home { IsSeatOf table.now home.old.seat }
    requires running { is_running home.old.seat.known.sleep ≡ true }
    requires free { home.old.seat.known.stage.hand ≡ None }
    requires one { IsSeatOf table.now sides.one.seat }
    requires other { IsSeatOf table.now sides.other.seat }
    requires handles { table.now.sizes.handles ≡ 2 }
    ensures home { IsSeatOf table.now home.new.seat }
    ensures running { is_running home.new.seat.known.sleep ≡ true }
    ensures free { home.new.seat.known.stage.hand ≡ None }
    ensures one { IsSeatOf table.now result.0.one.seat }
    ensures other { IsSeatOf table.now result.0.other.seat }
{
    let sides = sides.steps(table, order, pauses.0);
    if table.scan(home).urgent.is_some() {
        return (sides, End::Urgent);
    }
    let sides = sides.steps(table, order, pauses.1);
    table.arm(home);
    let sides = sides.steps(table, order, pauses.2);
    if table.test(home) {
        table.disarm(home);
        return (sides, End::Notified);
    }
    let sides = end_beside_sleep(rt, table, home, sides, order);
    table.disarm(home);
    (sides, End::Committed)
}

/// A seat that has done all.
fn let_go(rt: &impl Abort, side: Side) {
    match side.into_debt() {
        Debt::Nothing(_) => (),
        Debt::Announce => panic!(rt; "a handle was not announced"),
        Debt::Aim(owed) => panic!(rt; "{} was not pushed", owed.bh()),
        Debt::Link(_aimed) => panic!(rt; "a handle was not linked"),
        Debt::StoreNotified | Debt::LoadNotifyMe | Debt::SetNotifier => panic!(rt;
            "home was not notified"
        ),
    }
}

/// One order, with a table of its own. In the end home finds what was pushed.
fn try_order(
    rt: &impl Abort,
    alloc: Global,
    handles: (u32, u32),
    order: &mut Order,
    pauses: Pauses,
) -> Result<End, Fail>
    requires one { handles.0 < 2 }
    requires other { handles.1 < 2 }
{
    let Ok(
        Built {
            table,
            mut home,
            mut seat,
        },
    ) = LoopTable::<u64>::build(alloc, 2, 0, 0)
    else {
        return Err(Fail::from("no memory"));
    };
    let Some(other) = table.split(&mut seat) else {
        return Err(Fail::from("no halves"));
    };
    let sides = Sides {
        one: Side::of(seat, handles.0),
        other: Side::of(other, handles.1),
    };
    let (sides, end) = go_to_sleep(rt, &table, &mut home, sides, order, pauses);
    let Sides { one, other } = sides.steps(&table, order, STEPS);
    let_go(rt, one);
    let_go(rt, other);
    assert!(rt; table.scan(&mut home).urgent.is_some());
    Ok(end)
}

/// Every order of the seats' steps, with these pauses of home.
fn try_orders(
    rt: &impl Abort,
    alloc: Global,
    handles: (u32, u32),
    pauses: Pauses,
    ends: &mut Ends,
) -> Result<(), Fail>
    requires one { handles.0 < 2 }
    requires other { handles.1 < 2 }
{
    let mut order = Order::first();
    for _ in 0..u64::MAX {
        ends.note(try_order(rt, alloc, handles, &mut order, pauses)?);
        if !order.advance() {
            break;
        }
    }
    Ok(())
}

/// Every order of all steps: at least one ended in each of the three ways.
fn try_pauses(rt: &impl Abort, alloc: Global, handles: (u32, u32)) -> Result<Ends, Fail>
    requires one { handles.0 < 2 }
    requires other { handles.1 < 2 }
{
    let mut ends = Ends {
        urgent: 0,
        notified: 0,
        committed: 0,
    };
    for code in 0..15 * 15 * 15 {
        let pauses = (code / 225, code / 15 % 15, code % 15);
        if pauses.0 + pauses.1 + pauses.2 <= STEPS {
            try_orders(rt, alloc, handles, pauses, &mut ends)?;
        }
    }
    Ok(ends)
}

#[test]
fn no_order_of_two_enqueues_and_a_way_to_sleep_loses_a_wake_up(
    rt: HostRuntime,
) -> Result<(), Fail> {
    for handles in [(0, 1), (0, 0)] {
        let ends = try_pauses(&rt, rt.alloc(), handles)?;
        println!(rt; "{ends:?}")?;
        assert!(rt;
            ends.urgent > 0 && ends.notified > 0 && ends.committed > 0,
            "{ends:?}"
        );
    }
    Ok(())
}
