//! What is scheduled is begun in that order, with its state, and what isn't begun is left.
ghost use Rattle.std.specs.Prelude.{◌≡◌};
ghost use Rattle.co_schedule.specs.Calls.{IsSeatOf};
ghost use Rattle.aio_core.specs.Calls.{IsReady};

use crate::log::Log;
use aio_bh::{BottomHalves, Call, LotPool, Runner, Turn};
use aio_core::{Built, LoopTable, Seat};
use co_schedule::{Already, Cause, CoBuilt, CoClosed, CoHome, CoRun, CoSeat, CoTable};
use schedule_fixture::take_and_begin;
use std::alloc::Global;
use std::process::Abort;
use std::sync::Wait;
use std::test::Fail;

/// A post: the coroutine, the cause, the state, and the mark that is found where it is refused.
type Post = (u32, Cause, Option<u64>, Option<u64>);

/// Posts one after another.
fn post_all<R: Wait + Abort>(
    rt: &R,
    loop_table: &LoopTable<()>,
    loop_seat: &mut Seat<()>,
    table: &CoTable<u64>,
    seat: &mut CoSeat<u64>,
    posts: &[Post],
)
    requires loop_seat { IsReady loop_table.now loop_seat.old }
    requires handles { loop_table.now.sizes.handles ≡ 1 }
    requires seat { IsSeatOf table.now seat.old }
    requires coroutines { table.now.coroutines ≡ 8 }
    ensures loop_seat { IsReady loop_table.now loop_seat.new }
    ensures seat { IsSeatOf table.now seat.new }
    ensures numbers { (seat.new.known.first ≡ seat.old.known.first) × (seat.new.known.count ≡ seat.old.known.count) }
{
    for post in posts {
        post_one(rt, loop_table, loop_seat, table, seat, *post);
    }
}

fn post_one<R: Wait + Abort>(
    rt: &R,
    loop_table: &LoopTable<()>,
    loop_seat: &mut Seat<()>,
    table: &CoTable<u64>,
    seat: &mut CoSeat<u64>,
    post: Post,
)
    requires loop_seat { IsReady loop_table.now loop_seat.old }
    requires handles { loop_table.now.sizes.handles ≡ 1 }
    requires seat { IsSeatOf table.now seat.old }
    requires coroutines { table.now.coroutines ≡ 8 }
    ensures loop_seat { IsReady loop_table.now loop_seat.new }
    ensures seat { IsSeatOf table.now seat.new }
    ensures numbers { (seat.new.known.first ≡ seat.old.known.first) × (seat.new.known.count ≡ seat.old.known.count) }
{
    let (co, cause, state, refused) = post;
    assert!(rt; co < 8);
    let found = match table.post(rt, loop_table, seat, loop_seat, co, cause, state) {
        Ok(()) => None,
        Err(Already { mark, state: back }) => {
            assert_eq!(rt; back, state);
            Some(mark)
        }
    };
    assert_eq!(rt; found, refused, "at {co}");
}

/// A table with all its seats.
#[derive(Drop)]
struct Whole {
    table: CoTable<u64>,
    home: CoHome<u64>,
    seat: CoSeat<u64>,
    run: CoRun,
    log: Log,
}

impl Runner<()> for Whole {
    ghost use Rattle.std.specs.Prelude.{◌≡◌, true};
    ghost use Rattle.co_schedule.specs.Calls.{IsSeatOf};
    ghost use Rattle.co_schedule.specs.Homes.{IsIdle};

    ghost can_run = { λ w _. IsIdle w.table w.home w.run × IsSeatOf w.table w.seat × (w.seat.known.first ≡ 0) × (w.seat.known.count ≡ 64) };

    ghost does = { λ _ _ _. true ≡ true };

    fn run(&mut self, _table: &LoopTable<()>, _seat: &mut Seat<()>, call: &mut Call<()>) -> Turn {
        take_and_begin(
            &self.table,
            &mut self.home,
            &mut self.run,
            call,
            &mut self.log,
        );
        Turn::Done
    }
}

/// Which coroutine is left.
fn left_by(table: CoTable<u64>, home: CoHome<u64>, seat: CoSeat<u64>) -> Option<u32>
    requires home { IsSeatOf table home }
    requires seat { IsSeatOf table seat }
    requires numbers { (seat.known.first ≡ 0) × (seat.known.count ≡ 64) }
{
    match table.close(home, seat) {
        CoClosed::Ended(_) => None,
        CoClosed::Left(co, _) => Some(co),
    }
}

/// What was begun in order, how many were, and which coroutine is left.
type Outcome = ([(u32, Option<u64>); 4], usize, Option<u32>);

impl Whole {
    fn ends(self) -> Outcome
        requires home { IsSeatOf self.table self.home }
        requires seat { IsSeatOf self.table self.seat }
        requires numbers { (self.seat.known.first ≡ 0) × (self.seat.known.count ≡ 64) }
    {
        let Whole {
            table,
            home,
            seat,
            run: _,
            log,
        } = self;
        let left = left_by(table, home, seat);
        let first = log.first;
        (first, log.count, left)
    }
}

/// A table of eight coroutines, none of them scheduled: posts, and a poll where that is asked.
fn outcome<R: Wait + Abort>(
    rt: &R,
    alloc: Global,
    posts: &[Post],
    polls: bool,
) -> Result<Outcome, Fail> {
    let Ok(mut lots) = LotPool::build(rt, alloc, 1, 0) else {
        return Err(Fail::from("no memory"));
    };
    let Ok(built) = LoopTable::<()>::build(alloc, 1, 0, 0) else {
        return Err(Fail::from("no memory"));
    };
    let Built {
        table: loop_table,
        home: mut loop_home,
        seat: mut loop_seat,
    } = built;
    let Ok(
        CoBuilt {
            table,
            home,
            mut seat,
        },
    ) = CoTable::<u64>::build(alloc, 8)
    else {
        return Err(Fail::from("no memory"));
    };
    let Ok(run) = CoRun::build(alloc, 8) else {
        return Err(Fail::from("no memory"));
    };
    post_all(rt, &loop_table, &mut loop_seat, &table, &mut seat, posts);
    let mut whole = Whole {
        table,
        home,
        seat,
        run,
        log: Log::empty(),
    };
    if polls {
        loop_table.poll(rt, &lots.pool, &mut lots.home, &mut loop_home, &mut whole);
    }
    Ok(whole.ends())
}

#[test]
fn begun_in_order_of_pushing(rt: HostRuntime) -> Result<(), Fail> {
    let posts = [
        (1, Cause::Begin, Some(11), None),
        (2, Cause::Move, Some(12), None),
        (3, Cause::Wake, None, None),
    ];
    let begun = [(1, Some(11)), (2, Some(12)), (3, None), (0, None)];
    assert_eq!(rt; outcome(&rt, rt.alloc(), &posts, true)?, (begun, 3, None));
    Ok(())
}

#[test]
fn the_least_that_is_not_begun_is_left(rt: HostRuntime) -> Result<(), Fail> {
    let posts = [
        (7, Cause::Wake, None, None),
        (4, Cause::Begin, Some(14), None),
    ];
    let begun = [(0, None); 4];
    assert_eq!(rt;
        outcome(&rt, rt.alloc(), &posts, false)?,
        (begun, 0, Some(4))
    );
    Ok(())
}

#[test]
fn scheduled_twice_and_begun_once(rt: HostRuntime) -> Result<(), Fail> {
    let posts = [
        (5, Cause::Begin, Some(15), None),
        (5, Cause::Begin, Some(16), Some(1)),
    ];
    let begun = [(5, Some(15)), (0, None), (0, None), (0, None)];
    assert_eq!(rt; outcome(&rt, rt.alloc(), &posts, true)?, (begun, 1, None));
    Ok(())
}
