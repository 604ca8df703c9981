//! What settling a loop answers.
ghost use Rattle.std.specs.Prelude.{◌≡◌, ◌<◌, true, false};
ghost use Rattle.aio_model.specs.Loop.InFlight.{AtRest, Announced as announced};
ghost use Rattle.aio_core.specs.Known.{is_running, empty_stage};
ghost use Rattle.aio_core.specs.Standing.{may_notify};
ghost use Rattle.aio_core.specs.Calls.{IsSeatOf};
ghost use Rattle.aio_notify.specs.Settling.{is_committed};

use aio_bh::BottomHalves;
use aio_core::{Announced, Built, Home, LoopTable, Seat};
use aio_model::{Commit, Kind};
use aio_notify::{LoopEvents, Notify, Settled, Sleeping, settle};
use std::alloc::Global;
use std::process::Abort;
use std::sync::Wait;
use std::test::Fail;

/// A loop of one handle and four events, whose home runs and has taken nothing. Everybody is at rest.
struct World {
    table: LoopTable<u64>,
    home: Home<u64>,
    seat: Seat<u64>,
    ghost sizes: { (table.sizes.handles ≡ 1) × (table.sizes.events ≡ 4) },
    ghost home_of: { IsSeatOf table home.seat },
    ghost seat_of: { IsSeatOf table seat },
    ghost numbers: { (seat.known.first ≡ 0) × (seat.known.count ≡ 64) },
    ghost rest: { (seat.known.phase ≡ AtRest) × (home.seat.known.phase ≡ AtRest) },
    ghost running: { is_running home.seat.known.sleep ≡ true },
    ghost empty: { home.seat.known.stage ≡ empty_stage },
}

impl World {
    fn build(alloc: Global) -> Result<World, Fail> {
        let Ok(Built { table, home, seat }) = LoopTable::<u64>::build(alloc, 1, 0, 4) else {
            return Err(Fail::from("no memory"));
        };
        Ok(World { table, home, seat })
    }
}

/// Home commits, and watches the events of these bits.
fn commit(rt: &impl Abort, table: &LoopTable<u64>, home: &mut Home<u64>, watch: u64)
    requires seat { IsSeatOf table.now home.old.seat }
    requires running { is_running home.old.seat.known.sleep ≡ true }
    requires empty { home.old.seat.known.stage ≡ empty_stage }
    ensures seat { IsSeatOf table.now home.new.seat }
    ensures committed { is_committed home.new.seat.known.sleep ≡ true }
    ensures phase { home.new.seat.known.phase ≡ home.old.seat.known.phase }
    ensures empty { home.new.seat.known.stage ≡ empty_stage }
{
    match table.commit(home, watch, None, 0) {
        Commit::Sleep(_) => {}
        Commit::Awake(why) => panic!(rt; "awake for {why:?}"),
    }
}

/// What a settling is to find.
#[derive(Clone, Copy, Debug, PartialEq, Eq)]
enum Answer {
    Quiet,
    Pending(u32, bool),
    Event(u32, bool),
}

/// What a settling finds of a loop whose home is committed.
fn settled_as(table: LoopTable<u64>, home: Home<u64>, seat: Seat<u64>) -> Answer
    requires home { IsSeatOf table home.seat }
    requires seat { IsSeatOf table seat }
    requires committed { is_committed home.seat.known.sleep ≡ true }
    requires numbers { (seat.known.first ≡ 0) × (seat.known.count ≡ 64) }
    requires rest { (seat.known.phase ≡ AtRest) × (home.seat.known.phase ≡ AtRest) }
{
    match settle(table, home, seat) {
        Settled::Quiet(_) => Answer::Quiet,
        Settled::Pending(bh, left) => Answer::Pending(bh, left.notifier),
        Settled::Event(event, left) => Answer::Event(event, left.notifier),
    }
}

#[test]
fn an_empty_loop_is_quiet(rt: HostRuntime) -> Result<(), Fail> {
    let World {
        table,
        mut home,
        seat,
    } = World::build(rt.alloc())?;
    commit(&rt, &table, &mut home, 0);
    assert_eq!(rt; settled_as(table, home, seat), Answer::Quiet);
    Ok(())
}

#[test]
fn an_event_that_was_not_watched_rings_nobody(rt: HostRuntime) -> Result<(), Fail> {
    let World {
        table,
        mut home,
        mut seat,
    } = World::build(rt.alloc())?;
    table.set_event(&mut seat, 3);
    table.accept(&mut home);
    commit(&rt, &table, &mut home, 0);
    assert_eq!(rt; settled_as(table, home, seat), Answer::Event(3, false));
    Ok(())
}

#[test]
fn an_event_that_is_watched_rings(rt: HostRuntime) -> Result<(), Fail> {
    let World {
        table,
        mut home,
        mut seat,
    } = World::build(rt.alloc())?;
    commit(&rt, &table, &mut home, 15);
    table.set_event(&mut seat, 2);
    table.set_event(&mut seat, 1);
    assert_eq!(rt; settled_as(table, home, seat), Answer::Event(1, true));
    Ok(())
}

#[test]
fn an_idle_one_is_pending_and_rings_nobody(rt: HostRuntime) -> Result<(), Fail> {
    let World {
        table,
        mut home,
        mut seat,
    } = World::build(rt.alloc())?;
    table.schedule_idle(&rt, &mut seat, 0);
    table.accept(&mut home);
    commit(&rt, &table, &mut home, 0);
    assert_eq!(rt; settled_as(table, home, seat), Answer::Pending(0, false));
    Ok(())
}

/// Pushes what was announced, and notifies.
fn finish(rt: &impl Abort, table: &LoopTable<u64>, seat: &mut Seat<u64>, owed: Announced)
    requires seat { IsSeatOf table.now seat.old }
    requires phase { seat.old.known.phase ≡ announced owed }
    ensures seat { IsSeatOf table.now seat.new }
    ensures rest { seat.new.known.phase ≡ AtRest }
    ensures numbers { (seat.new.known.first ≡ seat.old.known.first) × (seat.new.known.count ≡ seat.old.known.count) }
{
    let aimed = table.aim(seat, owed);
    match table.link(seat, aimed) {
        Ok(()) => table.notify(seat),
        Err(owed) => panic!(rt; "the head moved on under {}", owed.bh()),
    }
}

#[test]
fn what_was_announced_before_a_commit_rings_by_its_push(rt: HostRuntime) -> Result<(), Fail> {
    let World {
        table,
        mut home,
        mut seat,
    } = World::build(rt.alloc())?;
    let (_, owed) = table.announce(&mut seat, 0, Kind::Sched);
    commit(&rt, &table, &mut home, 0);
    match owed {
        Some(owed) => finish(&rt, &table, &mut seat, owed),
        None => return Err(Fail::from("it was pending")),
    }
    assert_eq!(rt; settled_as(table, home, seat), Answer::Pending(0, true));
    Ok(())
}

#[test]
fn an_unsettled_loop_runs_on_and_is_settled_then(rt: HostRuntime) -> Result<(), Fail> {
    let World {
        table,
        mut home,
        mut seat,
    } = World::build(rt.alloc())?;
    commit(&rt, &table, &mut home, 1);
    table.set_event(&mut seat, 0);
    let Settled::Event(0, left) = settle(table, home, seat) else {
        return Err(Fail::from("no event was found"));
    };
    let mut home = left.home;
    left.table.disarm(&mut home);
    left.table.accept(&mut home);
    assert!(rt; left.table.clear_event(&mut home, 0));
    commit(&rt, &left.table, &mut home, 1);
    assert_eq!(rt; settled_as(left.table, home, left.seat), Answer::Quiet);
    Ok(())
}
