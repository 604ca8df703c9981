//! A callback places one-shots itself, with a pass of its own.
ghost use Rattle.std.specs.Prelude.{◌≡◌};
ghost use Rattle.aio_model.specs.Loop.InFlight.{AtRest};
ghost use Rattle.aio_model.specs.Loop.History.{History};
ghost use Rattle.aio_model.specs.Loop.Legal.{IsLegal};
ghost use Rattle.aio_core.specs.Calls.{IsSeatOf};
ghost use Rattle.lot_pool.specs.Pools.{IsPassOf, IsHomeOf};
ghost use Rattle.aio_bh.specs.Running.{SeatComesBack};
ghost use Rattle.aio_bh.specs.OneShots.{IsPoolFor};
ghost use Rattle.aio_bh.specs.Ready.{IsBetweenPolls};

use aio_bh::{BottomHalves, Call, LotBuilt, LotPass, LotPool, Runner, Turn};
use aio_core::{Built, Home, LoopTable, Seat};
use std::process::Abort;
use std::sync::Wait;
use std::test::Fail;

/// Callbacks of one-shots, each of which places a one-shot more. They note with which job they are entered, and count what was
/// refused.
#[derive(Drop)]
struct Placing<'a, R: Wait> {
    rt: &'a R,
    pool: &'a LotPool,
    pass: LotPass,
    entered: Option<u64>,
    last: u64,
    refused: u64,
}

impl<'a, R: Wait> Placing<'a, R> {
    fn place(&mut self, table: &LoopTable<u64>, seat: &mut Seat<u64>)
        requires seat { IsSeatOf table.now seat.old }
        requires rest { seat.old.known.phase ≡ AtRest }
        requires legal { IsLegal table.now.sizes seat.old.known.seen }
        requires pool { IsPoolFor table.now.sizes self.old.pool.now }
        requires pass { IsPassOf self.old.pool.now self.old.pass }
        ensures seat { IsSeatOf table.now seat.new }
        ensures same { self.new.pool ≡ self.old.pool }
        ensures pass { IsPassOf self.new.pool.now self.new.pass }
        ensures back { (made : History) × SeatComesBack made seat.old.known seat.new.known }
    {
        self.last = self.last.wrapping_add(1);
        let placed = table.once(self.rt, self.pool, &mut self.pass, seat, self.last);
        self.refused = self.refused.wrapping_add(u64::from(placed.is_err()));
    }
}

impl<'a, R: Wait> Runner<u64> for Placing<'a, R> {
    ghost use Rattle.std.specs.Prelude.{true};
    ghost use Rattle.lot_pool.specs.Pools.{IsPassOf};
    ghost use Rattle.aio_bh.specs.OneShots.{IsPoolFor};

    ghost can_run = { λ r sizes. IsPoolFor sizes r.pool.now × IsPassOf r.pool.now r.pass };

    ghost does = { λ _ _ _. true ≡ true };

    fn run(&mut self, table: &LoopTable<u64>, seat: &mut Seat<u64>, call: &mut Call<u64>) -> Turn {
        self.entered = call.job;
        self.place(table, seat);
        Turn::Done
    }
}

/// So many polls, each of which calls one one-shot, with the next job.
fn poll_each<'a, R: Abort + Wait>(
    rt: &R,
    table: &LoopTable<u64>,
    pool: &LotPool,
    lots: LotPass,
    home: Home<u64>,
    placing: Placing<'a, R>,
    polls: u64,
) -> (LotPass, Placing<'a, R>)
    requires runs { IsPoolFor table.now.sizes placing.pool.now × IsPassOf placing.pool.now placing.pass }
    requires pool { IsPoolFor table.now.sizes pool.now }
    requires lots { IsHomeOf pool.now lots }
    requires seat { IsBetweenPolls table.now home.seat }
{
    let mut lots = lots;
    let mut home = home;
    let mut placing = placing;
    for poll in 0..polls {
        let polled = table.poll(rt, pool, &mut lots, &mut home, &mut placing);
        assert_eq!(rt; (polled.ran, placing.entered), (1, Some(poll)));
    }
    (lots, placing)
}

#[test]
fn a_one_shot_places_the_next_one(rt: HostRuntime) -> Result<(), Fail> {
    let Ok(
        LotBuilt {
            pool,
            home: lots,
            mut pass,
        },
    ) = LotPool::build(&rt, rt.alloc(), 0, 2)
    else {
        return Err(Fail::from("no memory"));
    };
    let Ok(
        Built {
            table,
            home,
            mut seat,
        },
    ) = LoopTable::<u64>::build(rt.alloc(), 0, 2, 0)
    else {
        return Err(Fail::from("no memory"));
    };
    let Some(other) = pool.split(&mut pass) else {
        return Err(Fail::from("64 numbers are not split"));
    };
    assert!(rt; table.once(&rt, &pool, &mut pass, &mut seat, 0).is_ok());
    let placing = Placing {
        rt: &rt,
        pool: &pool,
        pass: other,
        entered: None,
        last: 0,
        refused: 0,
    };
    let (lots, placing) = poll_each(&rt, &table, &pool, lots, home, placing, 8);
    assert_eq!(rt; (placing.last, placing.refused, lots.kept()), (8, 0, 0));
    Ok(())
}
