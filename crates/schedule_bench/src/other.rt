//! A thread posts wakes while the home polls, until it has said by a coroutine of its own that it is done.
ghost use Rattle.std.specs.Prelude.{◌≡◌};
ghost use Rattle.aio_bh.specs.OneShots.{ServesHome};
ghost use Rattle.co_schedule.specs.Calls.{IsSeatOf};
ghost use Rattle.co_schedule.specs.Homes.{IsIdle};
ghost use Rattle.aio_core.specs.Calls.{IsReady};
ghost use Rattle.aio_bh.specs.Ready.{IsBetweenPolls};

use crate::begun::{Begun, COROUTINES, SHARED};
use aio_bh::{BottomHalves, LotBuilt};
use aio_core::{Built, Home, LoopTable};
use co_schedule::{CoBuilt, CoHome, CoRun, CoTable};
use schedule_fixture::{HomeCallback, HomeParts, Poster, build_parts, wake};
use std::alloc::Global;
use std::io;
use std::sync::Wait;
use std::thread::{Threads, join};

const WAKES: u32 = 200_000;

/// Wakes one coroutine after another, and then the one by which this thread says that it is done.
fn wake_all<R: Wait>(rt: &R, loop_table: &LoopTable<()>, table: &CoTable<u64>, poster: Poster)
    requires bh_seat { IsReady loop_table.now poster.bh_seat }
    requires handles { loop_table.now.sizes.handles ≡ 1 }
    requires seat { IsSeatOf table.now poster.seat }
    requires coroutines { table.now.coroutines ≡ 33 }
{
    let mut poster = poster;
    for turn in 0..WAKES {
        wake(rt, loop_table, table, &mut poster, turn % SHARED);
    }
    wake(rt, loop_table, table, &mut poster, SHARED);
}

/// Polls until the other thread has said that it is done. How many were begun.
fn poll_all<R: Wait>(
    rt: &R,
    loop_table: &LoopTable<()>,
    lots: LotBuilt,
    loop_home: Home<()>,
    callback: HomeCallback<Begun>,
) -> u64
    requires lots { ServesHome loop_table.now.sizes lots.pool lots.home }
    requires loop_home { IsBetweenPolls loop_table.now loop_home.seat }
    requires idle { IsIdle callback.table.now callback.home callback.run }
{
    let mut lots = lots;
    let mut loop_home = loop_home;
    let mut callback = callback;
    for _ in 0..u64::MAX {
        if callback.notes.is_last {
            break;
        }
        loop_table.poll(
            rt,
            &lots.pool,
            &mut lots.home,
            &mut loop_home,
            &mut callback,
        );
    }
    callback.notes.count
}

/// Both at once.
fn both<R: Threads + Wait + Sync>(
    rt: &R,
    loop_table: &LoopTable<()>,
    table: &CoTable<u64>,
    lots: LotBuilt,
    loop_home: Home<()>,
    home: CoHome<u64>,
    run: CoRun,
    poster: Poster,
) -> u64
    requires lots { ServesHome loop_table.now.sizes lots.pool lots.home }
    requires loop_home { IsBetweenPolls loop_table.now loop_home.seat }
    requires idle { IsIdle table.now home run }
    requires poster { IsReady loop_table.now poster.bh_seat × IsSeatOf table.now poster.seat }
    requires handles { loop_table.now.sizes.handles ≡ 1 }
    requires coroutines { table.now.coroutines ≡ 33 }
{
    let (_, count) = join(
        rt,
        || -> ()
            requires { IsReady loop_table.now poster.bh_seat × IsSeatOf table.now poster.seat × (loop_table.now.sizes.handles ≡ 1) × (table.now.coroutines ≡ 33) }
        { wake_all(rt, loop_table, table, poster) },
        || -> u64
            requires { ServesHome loop_table.now.sizes lots.pool lots.home × IsBetweenPolls loop_table.now loop_home.seat × IsIdle table.now home run }
        {
            let callback = HomeCallback {
                table,
                home,
                run,
                notes: Begun::none(),
            };
            poll_all(rt, loop_table, lots, loop_home, callback)
        },
    );
    count
}

pub fn other_thread<R: Threads + Wait + Sync + Print>(rt: &R, alloc: Global) -> io::Result<()> {
    let Ok(parts) = build_parts(rt, alloc, COROUTINES) else {
        return Err(io::Error::from(io::ErrorKind::OutOfMemory));
    };
    let HomeParts {
        lots,
        of_loop,
        of_coroutines,
        run,
    } = parts;
    let Built {
        table: loop_table,
        home: loop_home,
        seat: bh_seat,
    } = of_loop;
    let CoBuilt { table, home, seat } = of_coroutines;
    let poster = Poster { seat, bh_seat };
    let count = both(rt, &loop_table, &table, lots, loop_home, home, run, poster);
    println!(rt; "{count} posts by another thread were begun")
}
