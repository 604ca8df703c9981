//! Worked calls on a table.
ghost use Rattle.std.specs.Prelude.{◌≡◌, ◌<◌, true, length, None};
ghost use Rattle.aio_model.specs.Loop.InFlight.{AtRest};
ghost use Rattle.aio_core.specs.Known.{Armed, is_running};
ghost use Rattle.aio_core.specs.Standing.{may_notify};
ghost use Rattle.aio_core.specs.SleepSteps.{watched_in};
ghost use Rattle.aio_core.specs.Calls.{IsSeatOf};

use aio_core::{BuildRefusal, Home, Job, LoopTable, Seat};
use aio_model::Flags;
use std::process::Abort;
use std::test::Fail;

#[test]
fn a_table_has_4096_indices_and_64_events_at_most(rt: HostRuntime) -> Result<(), Fail> {
    let cases = [
        (4000, 97, 0, Some(4097)),
        (4000, 97, 65, Some(4097)),
        (1, 0, 65, Some(65)),
        (4000, 96, 64, None),
        (0, 0, 0, None),
    ];
    for (handles, lots, events, too_many) in cases {
        let found = match LoopTable::<()>::build(rt.alloc(), handles, lots, events) {
            Ok(_) => None,
            Err(BuildRefusal::TooMany(number)) => Some(number),
            Err(BuildRefusal::NoMemory) => return Err(Fail::from("no memory")),
        };
        assert_eq!(rt; found, too_many, "at {handles} {lots} {events}");
    }
    Ok(())
}

#[test]
fn a_job_has_a_number(rt: HostRuntime) {
    assert_eq!(rt; ().number(), 0);
    assert_eq!(rt; u64::MAX.number(), u64::MAX);
}

/// Splits the seat, and compares how many numbers the other one owns, if there is one.
fn split_off(rt: &impl Abort, table: &LoopTable<u64>, seat: &mut Seat<u64>, want: Option<u32>)
    requires seat { IsSeatOf table.now seat.old }
    requires rest { seat.old.known.phase ≡ AtRest }
    ensures seat { IsSeatOf table.now seat.new }
    ensures rest { seat.new.known.phase ≡ AtRest }
{
    match table.split(seat) {
        Some(other) => assert_eq!(rt; Some(other.count()), want),
        None => assert_eq!(rt; None, want),
    }
}

#[test]
fn a_seat_splits_in_halves_and_joins(rt: HostRuntime) -> Result<(), Fail> {
    let Ok(built) = LoopTable::<u64>::build(rt.alloc(), 1, 0, 0) else {
        return Err(Fail::from("no memory"));
    };
    let table = built.table;
    let mut seat = built.seat;
    assert_eq!(rt; (seat.first(), seat.count()), (0, 64));
    let Some(other) = table.split(&mut seat) else {
        return Err(Fail::from("no halves"));
    };
    assert_eq!(rt; (seat.first(), seat.count()), (0, 32));
    assert_eq!(rt; (other.first(), other.count()), (32, 32));
    table.join(&mut seat, other);
    assert_eq!(rt; (seat.first(), seat.count()), (0, 64));
    split_off(&rt, &table, &mut seat, Some(32));
    split_off(&rt, &table, &mut seat, Some(16));
    split_off(&rt, &table, &mut seat, Some(8));
    split_off(&rt, &table, &mut seat, Some(4));
    split_off(&rt, &table, &mut seat, Some(2));
    split_off(&rt, &table, &mut seat, Some(1));
    split_off(&rt, &table, &mut seat, None);
    Ok(())
}

/// Tells home that there is work. It isn't about to sleep.
pub(crate) fn notify(rt: &impl Abort, table: &LoopTable<u64>, seat: &mut Seat<u64>)
    requires seat { IsSeatOf table.now seat.old }
    requires phase { may_notify seat.old.known.phase ≡ true }
    ensures seat { IsSeatOf table.now seat.new }
    ensures rest { seat.new.known.phase ≡ AtRest }
{
    table.store_notified(seat);
    if table.load_notify_me(seat) {
        panic!(rt; "home sleeps");
    }
}

/// Claims the lot for the job, and pushes it. The job comes back where the lot is taken.
fn put(rt: &impl Abort, table: &LoopTable<u64>, seat: &mut Seat<u64>, job: u64) -> Option<u64>
    requires seat { IsSeatOf table.now seat.old }
    requires rest { seat.old.known.phase ≡ AtRest }
    requires lot { (table.now.sizes.handles ≡ 0) × (table.now.sizes.lots ≡ 1) }
    ensures seat { IsSeatOf table.now seat.new }
    ensures rest { seat.new.known.phase ≡ AtRest }
{
    let owed = match table.announce_once(seat, 0, job) {
        Ok(owed) => owed,
        Err(job) => return Some(job),
    };
    let aimed = table.aim(seat, owed);
    if let Err(owed) = table.link(seat, aimed) {
        panic!(rt; "{} is not linked", owed.bh());
    }
    notify(rt, table, seat);
    None
}

/// The first that home took, dequeued and set free.
fn dequeue_and_free(table: &LoopTable<u64>, home: &mut Home<u64>) -> Option<(Flags, Option<u64>)>
    requires seat { IsSeatOf table.now home.old.seat }
    requires free { home.old.seat.known.stage.hand ≡ None }
    requires lots { table.now.sizes.handles ≡ 0 }
    ensures seat { IsSeatOf table.now home.new.seat }
    ensures free { home.new.seat.known.stage.hand ≡ None }
{
    let next = table.dequeue_next(home)?;
    table.free(home, next.bh);
    Some((next.flags, next.job))
}

#[test]
fn a_lot_gives_its_job_once_and_is_free_again(rt: HostRuntime) -> Result<(), Fail> {
    let Ok(built) = LoopTable::<u64>::build(rt.alloc(), 0, 1, 0) else {
        return Err(Fail::from("no memory"));
    };
    let table = built.table;
    let mut home = built.home;
    let mut seat = built.seat;
    assert_eq!(rt; put(&rt, &table, &mut seat, 7), None);
    assert_eq!(rt; put(&rt, &table, &mut seat, 8), Some(8));
    table.take(&mut home);
    let flags = Flags {
        pending: true,
        scheduled: true,
        deleted: false,
        oneshot: true,
        idle: false,
    };
    assert_eq!(rt; dequeue_and_free(&table, &mut home), Some((flags, Some(7))));
    assert_eq!(rt; dequeue_and_free(&table, &mut home), None);
    assert_eq!(rt; put(&rt, &table, &mut seat, 8), None);
    Ok(())
}

/// Home finds nothing urgent, and says that it is about to sleep.
fn arm(rt: &impl Abort, table: &LoopTable<u64>, home: &mut Home<u64>)
    requires seat { IsSeatOf table.now home.old.seat }
    requires running { is_running home.old.seat.known.sleep ≡ true }
    requires free { home.old.seat.known.stage.hand ≡ None }
    ensures seat { IsSeatOf table.now home.new.seat }
    ensures armed { home.new.seat.known.sleep ≡ Armed (length home.new.seat.known.did) (watched_in home.new.seat.known.sleep) }
{
    match table.scan(home).urgent {
        None => table.arm(home),
        Some(bh) => panic!(rt; "{bh} is urgent"),
    }
}

/// A notify that finds home about to sleep.
fn ring(rt: &impl Abort, table: &LoopTable<u64>, seat: &mut Seat<u64>)
    requires seat { IsSeatOf table.now seat.old }
    requires phase { may_notify seat.old.known.phase ≡ true }
    ensures seat { IsSeatOf table.now seat.new }
    ensures rest { seat.new.known.phase ≡ AtRest }
{
    table.store_notified(seat);
    if table.load_notify_me(seat) {
        table.set_notifier(seat);
    } else {
        panic!(rt; "home doesn't sleep");
    }
}

#[test]
fn a_home_that_is_armed_is_told_and_disarms(rt: HostRuntime) -> Result<(), Fail> {
    let Ok(built) = LoopTable::<u64>::build(rt.alloc(), 1, 0, 0) else {
        return Err(Fail::from("no memory"));
    };
    let table = built.table;
    let mut home = built.home;
    let mut seat = built.seat;
    arm(&rt, &table, &mut home);
    ring(&rt, &table, &mut seat);
    assert!(rt; table.test(&mut home));
    table.disarm(&mut home);
    notify(&rt, &table, &mut seat);
    Ok(())
}
