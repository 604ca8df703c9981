//! What the device's home thread does.
ghost use Rattle.std.specs.Prelude.{◌≡◌, ◌<◌, ◌≤◌, true, IsFalse, MatchBool};
ghost use Rattle.aio_bh.specs.OneShots.{ServesHome};
ghost use Rattle.aio_loop.specs.Homes.{IsHomeFree};
ghost use Rattle.aio_loop.specs.Walks.{loop_far};
ghost use Rattle.device_loop.specs.Devices.{DeviceWorks, DeviceIsDone};
ghost use Rattle.device_loop.specs.Turning.{TurnsSome};

use crate::device::{Device, TICKS};
use aio_loop::AioLoop;
use aio_words::StepClock;
use std::sync::Wait;

/// Whether the device was asked to stop, and its timer has ticked as often as it does.
fn is_done(device: &Device<'_>) -> bool
    ensures { MatchBool result (DeviceIsDone device.now.counts) (true ≡ true) }
{
    device.counts.stopped && device.counts.ticks >= TICKS
}

/// Turns until the device is done. Where there is nothing to do home sleeps.
fn turn_until_done<R: Wait>(
    rt: &R,
    home_loop: &mut AioLoop<'_, ()>,
    device: &mut Device<'_>,
    clock: &mut StepClock,
)
    requires device { device.old.timer.number < home_loop.old.side.timers.made }
    requires lots { ServesHome home_loop.old.table.now.sizes home_loop.old.pool.now home_loop.old.lot_pass }
    requires home { IsHomeFree home_loop.old.table.now home_loop.old.home.seat }
    requires walking { IsFalse home_loop.old.side.handlers.walking }
    ensures same { (home_loop.new.table ≡ home_loop.old.table) × (home_loop.new.pool ≡ home_loop.old.pool) }
    ensures device { device.new.timer.number < home_loop.new.side.timers.made }
    ensures lots { ServesHome home_loop.old.table.now.sizes home_loop.old.pool.now home_loop.new.lot_pass }
    ensures home { IsHomeFree home_loop.old.table.now home_loop.new.home.seat }
    ensures walking { IsFalse home_loop.new.side.handlers.walking }
    ensures turns { TurnsSome (λ before entered after. DeviceWorks before.counts entered after.counts) home_loop.old.pool.now home_loop.old.table.now.sizes.events (loop_far home_loop.old.home.seat.known home_loop.old.side device.old) (loop_far home_loop.new.home.seat.known home_loop.new.side device.new) }
    ensures done { DeviceIsDone device.new.counts }
{
    for _ in rt.forever() {
        if is_done(device) {
            return;
        }
        home_loop.turn(rt, device, clock, true);
    }
    unreachable!()
}

/// Runs the device until it is done. One more turn answers what the guest rang before it asked to stop.
pub fn run_until_done<R: Wait>(
    rt: &R,
    home_loop: &mut AioLoop<'_, ()>,
    device: &mut Device<'_>,
    clock: &mut StepClock,
)
    requires device { device.old.timer.number < home_loop.old.side.timers.made }
    requires lots { ServesHome home_loop.old.table.now.sizes home_loop.old.pool.now home_loop.old.lot_pass }
    requires home { IsHomeFree home_loop.old.table.now home_loop.old.home.seat }
    requires walking { IsFalse home_loop.old.side.handlers.walking }
    ensures turns { TurnsSome (λ before entered after. DeviceWorks before.counts entered after.counts) home_loop.old.pool.now home_loop.old.table.now.sizes.events (loop_far home_loop.old.home.seat.known home_loop.old.side device.old) (loop_far home_loop.new.home.seat.known home_loop.new.side device.new) }
    ensures done { DeviceIsDone device.new.counts }
{
    turn_until_done(rt, home_loop, device, clock);
    home_loop.turn(rt, device, clock, false);
}
