//! Posts from a thread of its own.
ghost use Rattle.std.specs.Prelude.{◌≡◌, ◌<◌};
ghost use Rattle.aio_core.specs.Calls.{IsReady};
ghost use Rattle.co_schedule.specs.Calls.{IsSeatOf};

use aio_core::{LoopTable, Seat};
use co_schedule::{Cause, CoSeat, CoTable};
use std::sync::Wait;
use std::thread::yield_now;

/// The seats of the thread that posts.
#[derive(Drop)]
pub struct Poster {
    pub seat: CoSeat<u64>,
    pub bh_seat: Seat<()>,
}

/// Posts a wake until it is accepted, from the thread that has these seats. Where the coroutine is scheduled already, home gets time to begin it.
pub fn wake<R: Wait>(
    rt: &R,
    loop_table: &LoopTable<()>,
    table: &CoTable<u64>,
    poster: &mut Poster,
    co: u32,
)
    requires bh_seat { IsReady loop_table.now poster.old.bh_seat }
    requires handles { loop_table.now.sizes.handles ≡ 1 }
    requires seat { IsSeatOf table.now poster.old.seat }
    requires below { co < table.now.coroutines }
    ensures bh_seat { IsReady loop_table.now poster.new.bh_seat }
    ensures seat { IsSeatOf table.now poster.new.seat }
{
    for _ in rt.forever() {
        if table
            .post(
                rt,
                loop_table,
                &mut poster.seat,
                &mut poster.bh_seat,
                co,
                Cause::Wake,
                None,
            )
            .is_ok()
        {
            return;
        }
        yield_now();
    }
}
