//! How a home commits and what keeps it awake, step by step on one thread.
ghost use Rattle.std.specs.Prelude.{◌≡◌, ◌<◌, true, [], None};
ghost use Rattle.aio_model.specs.Loop.InFlight.{AtRest, Announced as announced};
ghost use Rattle.aio_core.specs.Standing.{may_notify};
ghost use Rattle.aio_core.specs.Known.{is_running};
ghost use Rattle.aio_core.specs.Scans.{IsAhead};
ghost use Rattle.aio_core.specs.Calls.{IsSeatOf, IsReady};

use crate::{LoopEvents, Notify, Sleeping};
use aio_core::{Announced, Built, Home, LoopTable, Seat};
use aio_model::{Commit, Kind, Why};
use std::process::Abort;
use std::test::Fail;

/// Home looks at all that was pushed, and finds nothing urgent.
fn scan(rt: &impl Abort, table: &LoopTable<()>, home: &mut Home<()>)
    requires seat { IsSeatOf table.now home.old.seat }
    requires running { is_running home.old.seat.known.sleep ≡ true }
    requires free { home.old.seat.known.stage.hand ≡ None }
    ensures seat { IsSeatOf table.now home.new.seat }
    ensures ahead { IsAhead [] home.new.seat.known }
    ensures free { home.new.seat.known.stage ≡ home.old.seat.known.stage }
{
    if let Some(bh) = table.scan(home).urgent {
        panic!(rt; "{bh} is urgent");
    }
}

/// Whether a home that has scanned finds that somebody notified. It is awake again.
fn hears(table: &LoopTable<()>, home: &mut Home<()>) -> bool
    requires seat { IsSeatOf table.now home.old.seat }
    requires ahead { IsAhead [] home.old.seat.known }
    ensures seat { IsSeatOf table.now home.new.seat }
    ensures running { is_running home.new.seat.known.sleep ≡ true }
    ensures free { home.new.seat.known.stage ≡ home.old.seat.known.stage }
{
    table.arm(home);
    let heard = table.test(home);
    table.disarm(home);
    heard
}

/// Pushes what was announced.
fn push(rt: &impl Abort, table: &LoopTable<()>, seat: &mut Seat<()>, owed: Announced)
    requires seat { IsSeatOf table.now seat.old }
    requires phase { seat.old.known.phase ≡ announced owed }
    ensures seat { IsSeatOf table.now seat.new }
    ensures phase { may_notify seat.new.known.phase ≡ true }
{
    let aimed = table.aim(seat, owed);
    if let Err(owed) = table.link(seat, aimed) {
        panic!(rt; "the head moved on under {}", owed.bh());
    }
}

/// A whole enqueue of the one handle, with its notify.
fn enqueue(rt: &impl Abort, table: &LoopTable<()>, seat: &mut Seat<()>, kind: Kind)
    requires seat { IsReady table.now seat.old }
    requires handle { 0 < table.now.sizes.handles }
    ensures seat { IsReady table.now seat.new }
{
    let (_, owed) = table.announce(seat, 0, kind);
    if let Some(owed) = owed {
        push(rt, table, seat, owed);
    }
    table.notify(seat);
}

#[test]
fn a_home_hears_of_a_notify_of_a_seat_at_rest(rt: HostRuntime) -> Result<(), Fail> {
    let Ok(built) = LoopTable::<()>::build(rt.alloc(), 1, 0, 0) else {
        return Err(Fail::from("no memory"));
    };
    let Built {
        table,
        mut home,
        mut seat,
    } = built;
    scan(&rt, &table, &mut home);
    assert!(rt; !hears(&table, &mut home));
    table.notify(&mut seat);
    scan(&rt, &table, &mut home);
    assert!(rt; hears(&table, &mut home));
    Ok(())
}

#[test]
fn a_home_hears_of_what_was_enqueued_behind_its_scan(rt: HostRuntime) -> Result<(), Fail> {
    let Ok(built) = LoopTable::<()>::build(rt.alloc(), 1, 0, 0) else {
        return Err(Fail::from("no memory"));
    };
    let Built {
        table,
        mut home,
        mut seat,
    } = built;
    scan(&rt, &table, &mut home);
    enqueue(&rt, &table, &mut seat, Kind::Sched);
    assert!(rt; hears(&table, &mut home));
    assert_eq!(rt; table.scan(&mut home).urgent, Some(0));
    Ok(())
}

/// A commit that keeps home awake, for this reason.
fn stays_awake(
    rt: &impl Abort,
    table: &LoopTable<()>,
    home: &mut Home<()>,
    watch: u64,
    deadline: Option<u64>,
    now: u64,
    want: Why,
)
    requires seat { IsSeatOf table.now home.old.seat }
    requires running { is_running home.old.seat.known.sleep ≡ true }
    requires free { home.old.seat.known.stage.hand ≡ None }
    ensures seat { IsSeatOf table.now home.new.seat }
    ensures running { is_running home.new.seat.known.sleep ≡ true }
    ensures free { home.new.seat.known.stage ≡ home.old.seat.known.stage }
{
    match table.commit(home, watch, deadline, now) {
        Commit::Awake(why) => assert_eq!(rt; why, want),
        Commit::Sleep(bound) => panic!(rt; "sleeps for {bound:?}"),
    }
}

/// A commit after which home sleeps, for at most this long. It is awake again.
fn sleeps(
    rt: &impl Abort,
    table: &LoopTable<()>,
    home: &mut Home<()>,
    deadline: Option<u64>,
    now: u64,
    want: Option<u64>,
)
    requires seat { IsSeatOf table.now home.old.seat }
    requires running { is_running home.old.seat.known.sleep ≡ true }
    requires free { home.old.seat.known.stage.hand ≡ None }
    ensures seat { IsSeatOf table.now home.new.seat }
    ensures running { is_running home.new.seat.known.sleep ≡ true }
    ensures free { home.new.seat.known.stage ≡ home.old.seat.known.stage }
{
    match table.commit(home, 0, deadline, now) {
        Commit::Sleep(bound) => {
            assert_eq!(rt; bound, want);
            table.disarm(home);
        }
        Commit::Awake(why) => panic!(rt; "awake for {why:?}"),
    }
}

#[test]
fn a_deadline_keeps_awake_once_it_has_come_and_bounds_the_sleep_before(
    rt: HostRuntime,
) -> Result<(), Fail> {
    let Ok(built) = LoopTable::<()>::build(rt.alloc(), 1, 0, 4) else {
        return Err(Fail::from("no memory"));
    };
    let Built {
        table,
        mut home,
        seat: _,
    } = built;
    stays_awake(&rt, &table, &mut home, 0, Some(50), 50, Why::Deadline);
    sleeps(&rt, &table, &mut home, Some(90), 50, Some(40));
    sleeps(&rt, &table, &mut home, None, 50, None);
    Ok(())
}

#[test]
fn an_event_keeps_awake_where_it_is_watched(rt: HostRuntime) -> Result<(), Fail> {
    let Ok(built) = LoopTable::<()>::build(rt.alloc(), 1, 0, 4) else {
        return Err(Fail::from("no memory"));
    };
    let Built {
        table,
        mut home,
        mut seat,
    } = built;
    table.set_event(&mut seat, 3);
    stays_awake(&rt, &table, &mut home, 0, None, 0, Why::Notified);
    stays_awake(&rt, &table, &mut home, 8, None, 0, Why::Event(3));
    assert_eq!(rt; table.found_set(&mut home, u64::MAX), 8);
    table.accept(&mut home);
    sleeps(&rt, &table, &mut home, None, 0, None);
    assert!(rt; table.clear_event(&mut home, 3));
    assert!(rt; !table.clear_event(&mut home, 3));
    assert_eq!(rt; table.found_set(&mut home, 8), 0);
    Ok(())
}

#[test]
fn an_idle_one_bounds_the_sleep_and_a_deleted_one_does_not(rt: HostRuntime) -> Result<(), Fail> {
    let Ok(built) = LoopTable::<()>::build(rt.alloc(), 1, 0, 0) else {
        return Err(Fail::from("no memory"));
    };
    let Built {
        table,
        mut home,
        mut seat,
    } = built;
    enqueue(&rt, &table, &mut seat, Kind::Idle);
    table.accept(&mut home);
    sleeps(&rt, &table, &mut home, None, 0, Some(10_000_000));
    sleeps(&rt, &table, &mut home, Some(40), 0, Some(40));
    sleeps(
        &rt,
        &table,
        &mut home,
        Some(20_000_000),
        0,
        Some(10_000_000),
    );
    enqueue(&rt, &table, &mut seat, Kind::Sched);
    table.accept(&mut home);
    sleeps(&rt, &table, &mut home, None, 0, Some(10_000_000));
    enqueue(&rt, &table, &mut seat, Kind::Del);
    table.accept(&mut home);
    sleeps(&rt, &table, &mut home, None, 0, None);
    Ok(())
}

/// One seat announces, home commits, and then the seat pushes and notifies.
fn commit_under_way(
    rt: &impl Abort,
    table: &LoopTable<()>,
    home: &mut Home<()>,
    seat: &mut Seat<()>,
)
    requires home { IsSeatOf table.now home.old.seat }
    requires running { is_running home.old.seat.known.sleep ≡ true }
    requires free { home.old.seat.known.stage.hand ≡ None }
    requires seat { IsReady table.now seat.old }
    requires handle { 0 < table.now.sizes.handles }
    ensures home { IsSeatOf table.now home.new.seat }
    ensures running { is_running home.new.seat.known.sleep ≡ true }
    ensures free { home.new.seat.known.stage ≡ home.old.seat.known.stage }
{
    let (_, owed) = table.announce(seat, 0, Kind::Sched);
    sleeps(rt, table, home, None, 0, None);
    if let Some(owed) = owed {
        push(rt, table, seat, owed);
    }
    table.notify(seat);
}

#[test]
fn a_home_sleeps_over_what_is_announced_and_is_kept_awake_by_its_push(
    rt: HostRuntime,
) -> Result<(), Fail> {
    let Ok(built) = LoopTable::<()>::build(rt.alloc(), 1, 0, 0) else {
        return Err(Fail::from("no memory"));
    };
    let Built {
        table,
        mut home,
        mut seat,
    } = built;
    commit_under_way(&rt, &table, &mut home, &mut seat);
    stays_awake(&rt, &table, &mut home, 0, None, 0, Why::Urgent(0));
    Ok(())
}
