//! Two threads schedule wakes into one home, which takes and begins them from a callback.
ghost use Rattle.std.specs.Prelude.{◌≡◌, ◌<◌};
ghost use Rattle.aio_bh.specs.OneShots.{ServesHome};
ghost use Rattle.co_schedule.specs.Calls.{IsSeatOf};
ghost use Rattle.co_schedule.specs.Homes.{IsIdle};
ghost use Rattle.aio_core.specs.Calls.{IsReady};
ghost use Rattle.aio_bh.specs.Ready.{IsBetweenPolls};

use crate::log::Log;
use aio_bh::{BottomHalves, LotBuilt};
use aio_core::{Built, Home, LoopTable};
use co_schedule::{CoBuilt, CoHome, CoRun, CoTable};
use schedule_fixture::{HomeCallback, HomeParts, NotesBegun, Poster, build_parts, wake};
use std::process::Abort;
use std::sync::Wait;
use std::test::Fail;
use std::thread::{Threads, join};

/// The coroutines that both threads wake; the two behind them say that a thread is done.
const SHARED: u32 = 32;

const WAKES: u32 = 10_000;

/// Wakes one coroutine after another, and then the one by which this thread says that it is done. Tells how often each was.
fn wake_all<R: Wait>(
    rt: &R,
    loop_table: &LoopTable<()>,
    table: &CoTable<u64>,
    poster: Poster,
    done: u32,
) -> Log
    requires bh_seat { IsReady loop_table.now poster.bh_seat }
    requires handles { loop_table.now.sizes.handles ≡ 1 }
    requires seat { IsSeatOf table.now poster.seat }
    requires coroutines { table.now.coroutines ≡ 34 }
    requires done { done < 34 }
{
    let mut poster = poster;
    let mut accepted = Log::empty();
    for turn in 0..WAKES {
        let co = (turn * 7 + done) % SHARED;
        wake(rt, loop_table, table, &mut poster, co);
        accepted.note(co, None);
    }
    wake(rt, loop_table, table, &mut poster, done);
    accepted.note(done, None);
    accepted
}

/// Both threads at once.
fn both_wake<R: Threads + Wait + Sync>(
    rt: &R,
    loop_table: &LoopTable<()>,
    table: &CoTable<u64>,
    first: Poster,
    second: Poster,
) -> (Log, Log)
    requires first { IsReady loop_table.now first.bh_seat × IsSeatOf table.now first.seat }
    requires second { IsReady loop_table.now second.bh_seat × IsSeatOf table.now second.seat }
    requires handles { loop_table.now.sizes.handles ≡ 1 }
    requires coroutines { table.now.coroutines ≡ 34 }
{
    join(
        rt,
        || -> Log
            requires { IsReady loop_table.now first.bh_seat × IsSeatOf table.now first.seat × (loop_table.now.sizes.handles ≡ 1) × (table.now.coroutines ≡ 34) }
        { wake_all(rt, loop_table, table, first, 32) },
        || -> Log
            requires { IsReady loop_table.now second.bh_seat × IsSeatOf table.now second.seat × (loop_table.now.sizes.handles ≡ 1) × (table.now.coroutines ≡ 34) }
        { wake_all(rt, loop_table, table, second, 33) },
    )
}

/// Polls until both threads have said that they are done.
fn poll_all<R: Wait>(
    rt: &R,
    loop_table: &LoopTable<()>,
    lots: LotBuilt,
    loop_home: Home<()>,
    callback: HomeCallback<Log>,
) -> Log
    requires lots { ServesHome loop_table.now.sizes lots.pool lots.home }
    requires loop_home { IsBetweenPolls loop_table.now loop_home.seat }
    requires idle { IsIdle callback.table.now callback.home callback.run }
{
    let mut lots = lots;
    let mut loop_home = loop_home;
    let mut callback = callback;
    for _ in 0..u64::MAX {
        if callback.notes.times[32] > 0 && callback.notes.times[33] > 0 {
            break;
        }
        loop_table.poll(
            rt,
            &lots.pool,
            &mut lots.home,
            &mut loop_home,
            &mut callback,
        );
    }
    let HomeCallback {
        table: _,
        home: _,
        run: _,
        notes,
    } = callback;
    notes
}

/// What each of two threads scheduled, and what was begun.
fn accepted_and_begun<R: Threads + Wait + Sync>(
    rt: &R,
    loop_table: &LoopTable<()>,
    table: &CoTable<u64>,
    lots: LotBuilt,
    loop_home: Home<()>,
    home: CoHome<u64>,
    run: CoRun,
    first: Poster,
    second: Poster,
) -> ((Log, Log), Log)
    requires lots { ServesHome loop_table.now.sizes lots.pool lots.home }
    requires loop_home { IsBetweenPolls loop_table.now loop_home.seat }
    requires idle { IsIdle table.now home run }
    requires first { IsReady loop_table.now first.bh_seat × IsSeatOf table.now first.seat }
    requires second { IsReady loop_table.now second.bh_seat × IsSeatOf table.now second.seat }
    requires handles { loop_table.now.sizes.handles ≡ 1 }
    requires coroutines { table.now.coroutines ≡ 34 }
{
    join(
        rt,
        || -> (Log, Log)
            requires { IsReady loop_table.now first.bh_seat × IsSeatOf table.now first.seat × IsReady loop_table.now second.bh_seat × IsSeatOf table.now second.seat × (loop_table.now.sizes.handles ≡ 1) × (table.now.coroutines ≡ 34) }
        { both_wake(rt, loop_table, table, first, second) },
        || -> Log
            requires { ServesHome loop_table.now.sizes lots.pool lots.home × IsBetweenPolls loop_table.now loop_home.seat × IsIdle table.now home run }
        {
            let callback = HomeCallback {
                table,
                home,
                run,
                notes: Log::empty(),
            };
            poll_all(rt, loop_table, lots, loop_home, callback)
        },
    )
}

/// Each schedule that was accepted was begun once.
fn all_begun(rt: &impl Abort, first: &Log, second: &Log, begun: &Log) {
    for co in 0..34usize {
        let accepted = first.times[co].wrapping_add(second.times[co]);
        assert_eq!(rt; begun.times[co], accepted, "of {co}");
    }
    assert_eq!(rt; begun.count, 20_002);
}

#[test]
fn each_accepted_schedule_is_begun_once(rt: HostRuntime) -> Result<(), Fail> {
    let Ok(parts) = build_parts(&rt, rt.alloc(), 34) else {
        return Err(Fail::from("no memory"));
    };
    let HomeParts {
        lots,
        of_loop,
        of_coroutines,
        run,
    } = parts;
    let Built {
        table: loop_table,
        home: loop_home,
        seat: mut bh_seat,
    } = of_loop;
    let CoBuilt {
        table,
        home,
        mut seat,
    } = of_coroutines;
    let Some(other) = table.split(&mut seat) else {
        return Err(Fail::from("64 numbers are not split"));
    };
    let Some(bh_other) = loop_table.split(&mut bh_seat) else {
        return Err(Fail::from("64 numbers are not split"));
    };
    let first = Poster { seat, bh_seat };
    let second = Poster {
        seat: other,
        bh_seat: bh_other,
    };
    let ((first, second), begun) = accepted_and_begun(
        &rt,
        &loop_table,
        &table,
        lots,
        loop_home,
        home,
        run,
        first,
        second,
    );
    all_begun(&rt, &first, &second, &begun);
    Ok(())
}
