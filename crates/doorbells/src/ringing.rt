//! A ring of a doorbell.
ghost use Rattle.std.specs.Prelude.{◌<◌};
ghost use Rattle.doorbells.specs.Rings.{Rings};
ghost use Rattle.aio_core.specs.Calls.{IsReady};

use aio_bh::BottomHalves;
use aio_core::{LoopTable, Seat};
use aio_model::Flags;
use std::sync::Wait;

/// Rings a doorbell, from any thread. Answers the flags that it found: the ring is a new one where the doorbell was neither
/// pending nor deleted. Another ring before it is answered changes nothing.
pub fn ring<R: Wait>(rt: &R, table: &LoopTable<()>, seat: &mut Seat<()>, bell: u32) -> Flags
    requires seat { IsReady table.now seat.old }
    requires handle { bell < table.now.sizes.handles }
    ensures { Rings table.now bell result seat.old seat.new }
{
    table.schedule(rt, seat, bell)
}
