//! The thread that rings the device.
ghost use Rattle.std.specs.Prelude.{◌<◌};
ghost use Rattle.aio_core.specs.Calls.{IsReady};

use aio_bh::BottomHalves;
use aio_core::{LoopTable, Seat};
use aio_notify::LoopEvents;
use std::sync::Wait;
use std::sync::atomic::{AtomicU64, Ordering};

/// The handle that is the device's doorbell.
pub const DOORBELL: u32 = 0;

/// The event by which the device is asked to stop.
pub const STOP: u32 = 0;

/// How many requests the guest puts.
const REQUESTS: u32 = 1_000;

/// Puts one request into the queue, and rings the doorbell.
fn put<R: Wait>(rt: &R, table: &LoopTable<()>, seat: &mut Seat<()>, queue: &AtomicU64)
    requires seat { IsReady table.now seat.old }
    requires handle { 0 < table.now.sizes.handles }
    ensures seat { IsReady table.now seat.new }
{
    queue.fetch_add(1, Ordering::SeqCst);
    table.schedule(rt, seat, DOORBELL);
}

/// Puts its requests. Then it asks the device to stop.
pub fn drive<R: Wait>(rt: &R, table: &LoopTable<()>, seat: Seat<()>, queue: &AtomicU64)
    requires seat { IsReady table.now seat }
    requires handle { 0 < table.now.sizes.handles }
    requires event { 0 < table.now.sizes.events }
{
    let mut seat = seat;
    for _ in 0..REQUESTS {
        put(rt, table, &mut seat, queue);
    }
    table.set_event(&mut seat, STOP);
}
