//! One thread schedules 32 coroutines and begins them in a poll, over and over.
ghost use Rattle.std.specs.Prelude.{◌≡◌, ◌<◌};
ghost use Rattle.aio_bh.specs.OneShots.{ServesHome};
ghost use Rattle.co_schedule.specs.Calls.{IsSeatOf};
ghost use Rattle.co_schedule.specs.Homes.{IsIdle};
ghost use Rattle.aio_core.specs.Calls.{IsReady};
ghost use Rattle.aio_bh.specs.Ready.{IsBetweenPolls};

use crate::begun::{Begun, COROUTINES, SHARED};
use aio_bh::{BottomHalves, LotBuilt};
use aio_core::{Built, Home, LoopTable, Seat};
use co_schedule::{Cause, CoBuilt, CoSeat, CoTable};
use schedule_fixture::{HomeCallback, HomeParts, build_parts};
use std::alloc::Global;
use std::io;
use std::sync::Wait;

const ROUNDS: u32 = 40_000;

fn schedule_all<R: Wait>(rt: &R, table: &CoTable<u64>, seat: &mut CoSeat<u64>)
    requires seat { IsSeatOf table.now seat.old }
    requires coroutines { table.now.coroutines ≡ 33 }
    ensures seat { IsSeatOf table.now seat.new }
{
    for co in 0..SHARED {
        let _accepted = table.schedule(rt, seat, co, Cause::Wake, None).is_ok();
    }
}

/// How many were begun.
fn rounds<R: Wait>(
    rt: &R,
    loop_table: &LoopTable<()>,
    lots: LotBuilt,
    loop_home: Home<()>,
    bh_seat: Seat<()>,
    callback: HomeCallback<Begun>,
    table: &CoTable<u64>,
    seat: CoSeat<u64>,
) -> u64
    requires lots { ServesHome loop_table.now.sizes lots.pool lots.home }
    requires loop_home { IsBetweenPolls loop_table.now loop_home.seat }
    requires bh_seat { IsReady loop_table.now bh_seat }
    requires handles { loop_table.now.sizes.handles ≡ 1 }
    requires idle { IsIdle callback.table.now callback.home callback.run }
    requires seat { IsSeatOf table.now seat }
    requires coroutines { table.now.coroutines ≡ 33 }
{
    let mut lots = lots;
    let mut loop_home = loop_home;
    let mut bh_seat = bh_seat;
    let mut callback = callback;
    let mut seat = seat;
    for _ in 0..ROUNDS {
        schedule_all(rt, table, &mut seat);
        let _flags = loop_table.schedule(rt, &mut bh_seat, 0);
        loop_table.poll(
            rt,
            &lots.pool,
            &mut lots.home,
            &mut loop_home,
            &mut callback,
        );
    }
    callback.notes.count
}

pub fn same_thread<R: Wait + Print>(rt: &R, alloc: Global) -> io::Result<()> {
    let Ok(parts) = build_parts(rt, alloc, COROUTINES) else {
        return Err(io::Error::from(io::ErrorKind::OutOfMemory));
    };
    let HomeParts {
        lots,
        of_loop,
        of_coroutines,
        run,
    } = parts;
    let Built {
        table: loop_table,
        home: loop_home,
        seat: bh_seat,
    } = of_loop;
    let CoBuilt { table, home, seat } = of_coroutines;
    let callback = HomeCallback {
        table: &table,
        home,
        run,
        notes: Begun::none(),
    };
    let count = rounds(
        rt,
        &loop_table,
        lots,
        loop_home,
        bh_seat,
        callback,
        &table,
        seat,
    );
    println!(rt; "{count} schedules by the home's thread were begun")
}
