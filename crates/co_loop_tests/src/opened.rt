//! Loops that were just built.
ghost use Rattle.std.specs.Prelude.{◌≡◌, ◌<◌, IfOk, IsFalse};
ghost use Rattle.loop_rows.specs.Posts.{IsSeated};
ghost use Rattle.co_loop.specs.Rows.{IsLoopOf};
ghost use Rattle.co_loop_tests.specs.Loops.{IsOpened};

use crate::players::Player;
use aio_bh::{LotBuilt, LotPass, LotPool};
use aio_core::{Built, Home, LoopTable};
use aio_loop::{Handlers, Side};
use aio_model::Cause;
use co_loop::build_timers;
use co_schedule::{CoBuilt, CoHome, CoRun, CoTable};
use loop_rows::{LoopShared, Seats};
use std::alloc::Global;
use std::sync::Wait;
use std::test::Fail;

/// How many coroutines there are.
pub(crate) const PLAYERS: u32 = 4;

/// What the home thread of a loop owns.
#[derive(Drop)]
pub(crate) struct Ends {
    pub(crate) home: Home<()>,
    pub(crate) lot_pass: LotPass,
    pub(crate) co_home: CoHome<Player>,
    pub(crate) run: CoRun,
}

/// A loop, with seats for two rows.
#[derive(Drop)]
pub(crate) struct Opened {
    pub(crate) shared: LoopShared<Player>,
    pub(crate) seats: Seats<Player>,
    pub(crate) others: Seats<Player>,
    pub(crate) ends: Ends,
}

fn open<R: Wait>(rt: &R, alloc: Global) -> Result<Opened, Fail>
    ensures { IfOk result (λ o. IsOpened o.shared o.seats o.others o.ends.home.seat o.ends.lot_pass o.ends.co_home o.ends.run) }
{
    let (Ok(lots), Ok(bottoms), Ok(coroutines), Ok(run)) = (
        LotPool::build(rt, alloc, 1, 0),
        LoopTable::<()>::build(alloc, 1, 0, 1),
        CoTable::<Player>::build(alloc, PLAYERS),
        CoRun::build(alloc, PLAYERS),
    ) else {
        return Err(Fail::from("no memory"));
    };
    let LotBuilt {
        pool,
        home: lot_pass,
        pass: _,
    } = lots;
    let Built {
        table,
        home,
        mut seat,
    } = bottoms;
    let CoBuilt {
        table: co_table,
        home: co_home,
        seat: mut co_seat,
    } = coroutines;
    let (Some(other), Some(co_other)) = (table.split(&mut seat), co_table.split(&mut co_seat))
    else {
        return Err(Fail::from("64 numbers are not split"));
    };
    Ok(Opened {
        shared: LoopShared {
            bottoms: table,
            pool,
            coroutines: co_table,
        },
        seats: Seats {
            bottoms: seat,
            coroutines: co_seat,
        },
        others: Seats {
            bottoms: other,
            coroutines: co_other,
        },
        ends: Ends {
            home,
            lot_pass,
            co_home,
            run,
        },
    })
}

/// The handlers and timers of a loop.
pub(crate) fn open_side(alloc: Global) -> Result<Side, Fail>
    ensures { IfOk result (λ side. (side.timers.made ≡ 4) × IsFalse side.handlers.walking) }
{
    let (Ok(mut handlers), Ok(timers)) = (Handlers::build(alloc, 1), build_timers(alloc, PLAYERS))
    else {
        return Err(Fail::from("no memory"));
    };
    if handlers.add(0, 0).is_err() {
        return Err(Fail::from("no room"));
    }
    Ok(Side { handlers, timers })
}

fn post<R: Wait>(
    rt: &R,
    shared: &LoopShared<Player>,
    seats: &mut Seats<Player>,
    co: u32,
    player: Option<Player>,
)
    requires loop_of { IsLoopOf 4 shared.now }
    requires seats { IsSeated shared.now seats.old }
    ensures seats { IsSeated shared.now seats.new }
{
    if co >= PLAYERS {
        return;
    }
    let cause = match player {
        Some(_) => Cause::Begin,
        None => Cause::Wake,
    };
    // The test looks at what is entered, and not at who was refused.
    let _posted = shared.coroutines.post(
        rt,
        &shared.bottoms,
        &mut seats.coroutines,
        &mut seats.bottoms,
        co,
        cause,
        player,
    );
}

/// The loop, with a player posted to it, or with a wake where there is none.
fn with<R: Wait>(rt: &R, opened: Opened, co: u32, player: Option<Player>) -> Opened
    requires opened { IsOpened opened.shared opened.seats opened.others opened.ends.home.seat opened.ends.lot_pass opened.ends.co_home opened.ends.run }
    ensures { IsOpened result.shared result.seats result.others result.ends.home.seat result.ends.lot_pass result.ends.co_home result.ends.run }
{
    let mut opened = opened;
    post(rt, &opened.shared, &mut opened.seats, co, player);
    opened
}

/// A loop that was opened, with these posted to it in their order.
pub(crate) fn open_with<R: Wait>(
    rt: &R,
    alloc: Global,
    players: &[(u32, Option<Player>)],
) -> Result<Opened, Fail>
    ensures { IfOk result (λ o. IsOpened o.shared o.seats o.others o.ends.home.seat o.ends.lot_pass o.ends.co_home o.ends.run) }
{
    let mut opened = open(rt, alloc)?;
    for (co, player) in players {
        opened = with(rt, opened, *co, *player);
    }
    Ok(opened)
}
