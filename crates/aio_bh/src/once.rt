//! One-shots from any thread, after aio_bh_schedule_oneshot of QEMU's util/async.c, with a place from a pool instead of memory.
ghost use Rattle.std.specs.Prelude.{◌≡◌, MatchResult};
ghost use Rattle.aio_model.specs.Loop.InFlight.{AtRest, Announced as announced};
ghost use Rattle.aio_core.specs.Calls.{IsSeatOf, IsReady};
ghost use Rattle.lot_pool.specs.Pools.{IsPassOf};
ghost use Rattle.aio_bh.specs.OneShots.{IsPoolFor, FindsNoRoom, PlacesIn, PlacesOnce};

use crate::enqueue::push_in_the_end;
use aio_core::{Announced, Job, LoopTable, Seat};
use lot_pool::{LotPass, LotPool};
use std::sync::Wait;

/// The job of a one-shot for which no lot was free.
#[derive(Debug, Drop)]
pub struct NoRoom<J> {
    pub job: J,
}

/// Pops a lot and claims it for the job, and pops again where it was found taken.
fn announce_in_some<J: Job, R: Wait>(
    rt: &R,
    table: &LoopTable<J>,
    pool: &LotPool,
    pass: &mut LotPass,
    seat: &mut Seat<J>,
    job: J,
) -> Result<Announced, NoRoom<J>>
    requires pool { IsPoolFor table.now.sizes pool.now }
    requires pass { IsPassOf pool.now pass.old }
    requires seat { IsReady table.now seat.old }
    ensures pass { IsPassOf pool.now pass.new }
    ensures seat { IsSeatOf table.now seat.new }
    ensures placed { MatchResult result (λ owed. PlacesIn owed (J.number_of job) pass.old seat.old.known pass.new seat.new.known × (seat.new.known.phase ≡ announced owed)) (λ refused. (refused.job ≡ job) × FindsNoRoom pass.old seat.old.known pass.new seat.new.known) }
{
    let mut job = job;
    for _ in rt.forever() {
        let Some(lot) = pool.pop(rt, pass) else {
            return Err(NoRoom { job });
        };
        match table.announce_once(seat, lot, job) {
            Ok(owed) => return Ok(owed),
            Err(back) => job = back,
        }
    }
    unreachable!()
}

/// A one-shot in a lot of the pool.
pub fn once_in<J: Job, R: Wait>(
    rt: &R,
    table: &LoopTable<J>,
    pool: &LotPool,
    pass: &mut LotPass,
    seat: &mut Seat<J>,
    job: J,
) -> Result<(), NoRoom<J>>
    requires pool { IsPoolFor table.now.sizes pool.now }
    requires pass { IsPassOf pool.now pass.old }
    requires seat { IsReady table.now seat.old }
    ensures pass { IsPassOf pool.now pass.new }
    ensures seat { IsReady table.now seat.new }
    ensures placed { MatchResult result (λ _. PlacesOnce (J.number_of job) pass.old seat.old.known pass.new seat.new.known) (λ refused. (refused.job ≡ job) × FindsNoRoom pass.old seat.old.known pass.new seat.new.known) }
{
    match announce_in_some(rt, table, pool, pass, seat, job) {
        Ok(owed) => {
            push_in_the_end(rt, table, seat, owed);
            Ok(())
        }
        Err(refused) => Err(refused),
    }
}
