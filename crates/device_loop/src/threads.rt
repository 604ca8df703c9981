//! The device's home thread and the guest's.
ghost use Rattle.std.specs.Prelude.{◌≡◌, ◌<◌, ◌≤◌, true, false, IfOk, IfSome};
ghost use Rattle.std.specs.Thread.{IsSync};
ghost use Rattle.aio_bh.specs.OneShots.{ServesHome};
ghost use Rattle.aio_loop.specs.Homes.{IsHomeFree};
ghost use Rattle.device_loop.specs.Devices.{DeviceIsDone};
ghost use Rattle.aio_core.specs.Calls.{IsReady};

use crate::counts::Counts;
use crate::device::{Device, PERIOD};
use crate::guest::{STOP, drive};
use crate::running::run_until_done;
use aio_bh::{LotBuilt, LotPool};
use aio_core::{Built, LoopTable, Seat};
use aio_loop::{AioLoop, Handlers, Side, TimerId, Timers};
use aio_words::StepClock;
use std::alloc::Global;
use std::io;
use std::sync::Wait;
use std::sync::atomic::AtomicU64;
use std::thread::{Threads, join};

/// What the device tells once it is done.
#[derive(Clone, Copy)]
pub struct Report {
    pub counts: Counts,
    pub served: u64,
    /// The time on its clock.
    pub time: u64,
    ghost done: { DeviceIsDone counts },
}

/// A timer that is armed for its first tick, and a handler of the event by which the device is asked to stop.
struct Armed {
    side: Side,
    timer: TimerId,
    ghost timer_of: { timer.number < side.timers.made },
    ghost walking: { side.handlers.walking ≡ false },
}

fn arm(alloc: Global) -> io::Result<Armed> {
    let (Ok(mut handlers), Ok(mut timers)) = (Handlers::build(alloc, 1), Timers::build(alloc, 1))
    else {
        return Err(io::Error::from(io::ErrorKind::OutOfMemory));
    };
    let (Ok(_), Some(timer)) = (handlers.add(STOP, 0), timers.add()) else {
        return Err(io::Error::from(io::ErrorKind::Other));
    };
    timers.arm(timer, PERIOD);
    Ok(Armed {
        side: Side { handlers, timers },
        timer,
    })
}

/// The home thread.
fn serve<R: Wait>(rt: &R, home_loop: AioLoop<'_, ()>, timer: TimerId, queue: &AtomicU64) -> Report
    requires timer { timer.number < home_loop.side.timers.made }
    requires lots { ServesHome home_loop.table.now.sizes home_loop.pool.now home_loop.lot_pass }
    requires home { IsHomeFree home_loop.table.now home_loop.home.seat }
    requires walking { home_loop.side.handlers.walking ≡ false }
{
    let mut home_loop = home_loop;
    let mut device = Device {
        queue,
        timer,
        due: 2 * PERIOD,
        served: 0,
        counts: Counts::none(),
    };
    let mut clock = StepClock { now: 0 };
    run_until_done(rt, &mut home_loop, &mut device, &mut clock);
    Report {
        counts: device.counts,
        served: device.served,
        time: clock.now,
    }
}

/// Both threads.
fn on_two_threads<R: Threads + Wait + Sync>(
    rt: &R,
    home_loop: AioLoop<'_, ()>,
    timer: TimerId,
    table: &LoopTable<()>,
    seat: Seat<()>,
) -> Report
    requires timer { timer.number < home_loop.side.timers.made }
    requires lots { ServesHome home_loop.table.now.sizes home_loop.pool.now home_loop.lot_pass }
    requires home { IsHomeFree home_loop.table.now home_loop.home.seat }
    requires walking { home_loop.side.handlers.walking ≡ false }
    requires seat { IsReady table.now seat }
    requires handle { 0 < table.now.sizes.handles }
    requires event { 0 < table.now.sizes.events }
{
    let queue = AtomicU64::new(0);
    let (report, ()) = join(
        rt,
        || -> Report
            requires { (timer.number < home_loop.side.timers.made) × ServesHome home_loop.table.now.sizes home_loop.pool.now home_loop.lot_pass × IsHomeFree home_loop.table.now home_loop.home.seat × (home_loop.side.handlers.walking ≡ false) }
        { serve(rt, home_loop, timer, &queue) },
        || -> ()
            requires { IsReady table.now seat × (0 < table.now.sizes.handles) × (0 < table.now.sizes.events) }
        { drive(rt, table, seat, &queue) },
    );
    report
}

/// Runs the device, and prints what came of it.
pub fn run_device<R: Threads + Wait + Print + Sync>(rt: &R, alloc: Global) -> io::Result<()> {
    let Ok(
        LotBuilt {
            pool,
            home: lot_pass,
            pass: _,
        },
    ) = LotPool::build(rt, alloc, 1, 0)
    else {
        return Err(io::Error::from(io::ErrorKind::OutOfMemory));
    };
    let Ok(Built { table, home, seat }) = LoopTable::<()>::build(alloc, 1, 0, 1) else {
        return Err(io::Error::from(io::ErrorKind::OutOfMemory));
    };
    let Armed { side, timer } = arm(alloc)?;
    let home_loop = AioLoop {
        table: &table,
        pool: &pool,
        lot_pass,
        home,
        side,
    };
    let report = on_two_threads(rt, home_loop, timer, &table, seat);
    println!(rt; "{} requests served", report.served)?;
    println!(rt; "{} ticks until {} ns", report.counts.ticks, report.time)?;
    println!(rt; "stopped: {}", report.counts.stopped)
}
