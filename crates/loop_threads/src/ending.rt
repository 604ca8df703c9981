//! The end of each loop, once all threads are joined: its home sleeps, takes in all numbers, and finds nothing left.
ghost use Rattle.std.specs.Prelude.{◌≡◌, ◌≤◌, true, vec_len, vec_capacity, MatchOption};
ghost use Rattle.aio_model.specs.Loop.InFlight.{AtRest};
ghost use Rattle.aio_notify.specs.Commits.{Commits};
ghost use Rattle.aio_notify.specs.Settling.{is_committed, EndsQuiet};
ghost use Rattle.aio_core.specs.Calls.{IsSeatOf};
ghost use Rattle.aio_loop.specs.Homes.{IsHomeFree};
ghost use Rattle.co_schedule.specs.Calls.{IsSeatOf as IsCoSeatOf, Ends};
ghost use Rattle.loop_rows.specs.Rows.{AreSeatsOf, IsRow, HasNumbers};
ghost use Rattle.loop_threads.specs.Within.{HaveOwn, OwnEach};
ghost use Rattle.loop_threads.specs.Members.{MembersEach};
ghost use Rattle.loop_threads.specs.Ending.{IsRest, IsLast, EndsLoop, EndsEach, FallsAsleep};

use crate::members::{Joined, Member};
use aio_bh::LotPass;
use aio_core::{Home, LoopTable, Seat};
use aio_loop::Side;
use aio_model::Commit;
use aio_notify::{LoopEnd, Settled, Sleeping, settle};
use co_schedule::{CoClosed, CoEnd, CoHome, CoSeat, CoTable};
use co_state::Origin;
use loop_rows::{LoopShared, Seats};
use std::sync::Wait;

/// A loop whose run is over: its whole history and that of its coroutines, and what was home's alone.
#[derive(Drop)]
pub struct LoopRun<C: Origin, W> {
    pub calls: LoopEnd<()>,
    pub coroutines: CoEnd<C>,
    pub side: Side,
    pub lot_pass: LotPass,
    pub work: W,
}

/// Home goes to sleep. It waits for ever where a bottom half that is due keeps it awake.
fn fall_asleep<R: Wait>(rt: &R, table: &LoopTable<()>, home: &mut Home<()>)
    requires home { IsHomeFree table.now home.old.seat }
    ensures { FallsAsleep table.now home.old.seat home.new.seat }
{
    match table.commit(home, 0, None, 0) {
        Commit::Sleep(_) => {}
        Commit::Awake(_) => {
            for _ in rt.forever() {}
            unreachable!()
        }
    }
}

/// The whole history of a loop whose home sleeps. It waits for ever where something is pending or an event is set.
fn settled<R: Wait>(rt: &R, table: LoopTable<()>, home: Home<()>, seat: Seat<()>) -> LoopEnd<()>
    requires home { IsSeatOf table home.seat }
    requires seat { IsSeatOf table seat }
    requires committed { is_committed home.seat.known.sleep ≡ true }
    requires all { (seat.known.first ≡ 0) × (seat.known.count ≡ 64) }
    requires rest { (seat.known.phase ≡ AtRest) × (home.seat.known.phase ≡ AtRest) }
    ensures { (result.table ≡ table.table) × EndsQuiet seat.known home.seat.known result.known }
{
    match settle(table, home, seat) {
        Settled::Quiet(end) => end,
        _ => {
            for _ in rt.forever() {}
            unreachable!()
        }
    }
}

/// The whole history of a loop's coroutines. It waits for ever where one was scheduled and not entered.
fn closed<C: Origin + Drop, R: Wait>(
    rt: &R,
    table: CoTable<C>,
    home: CoHome<C>,
    seat: CoSeat<C>,
) -> CoEnd<C>
    requires home { IsCoSeatOf table home }
    requires seat { IsCoSeatOf table seat }
    requires numbers { (seat.known.first ≡ 0) × (seat.known.count ≡ 64) }
    ensures { Ends table home.known seat.known result }
{
    match table.close(home, seat) {
        CoClosed::Ended(end) => end,
        CoClosed::Left(_, _) => {
            for _ in rt.forever() {}
            unreachable!()
        }
    }
}

/// Ends one loop, whose threads are all joined.
pub(crate) fn end_loop<C: Origin + Drop, W: Drop, R: Wait>(
    rt: &R,
    shared: LoopShared<C>,
    member: Member<C, W>,
    seats: Seats<C>,
) -> LoopRun<C, W>
    requires home { IsHomeFree shared.bottoms member.home.seat }
    requires coroutines { IsCoSeatOf shared.coroutines member.coroutines }
    requires seats { AreSeatsOf 0 64 shared seats }
    requires own { HaveOwn seats }
    ensures { EndsLoop shared member seats result }
{
    let LoopShared {
        bottoms,
        pool: _,
        coroutines,
    } = shared;
    let Member {
        mut home,
        side,
        lot_pass,
        coroutines: co_home,
        work,
    } = member;
    fall_asleep(rt, &bottoms, &mut home);
    LoopRun {
        calls: settled(rt, bottoms, home, seats.bottoms),
        coroutines: closed(rt, coroutines, co_home, seats.coroutines),
        side,
        lot_pass,
        work,
    }
}

/// Loops that are still to be ended.
#[derive(Drop)]
struct Rest<C: Origin, W> {
    shared: Vec<LoopShared<C>>,
    members: Vec<Member<C, W>>,
    seats: Vec<Seats<C>>,
}

/// The last of them.
#[derive(Drop)]
struct Last<C: Origin, W> {
    shared: LoopShared<C>,
    member: Member<C, W>,
    seats: Seats<C>,
}

impl<C: Origin + Drop, W: Drop> Rest<C, W> {
    fn take_last(&mut self) -> Option<Last<C, W>>
        requires { IsRest self.old }
        ensures rest { IsRest self.new }
        ensures last { MatchOption result (vec_len self.old.shared ≡ 0) (λ last. IsLast self.old self.new last) }
    {
        let shared = self.shared.pop()?;
        let Some(member) = self.members.pop() else {
            unreachable!()
        };
        let Some(seats) = self.seats.pop() else {
            unreachable!()
        };
        Some(Last {
            shared,
            member,
            seats,
        })
    }
}

/// Ends the loops, the last one after the others.
fn end_rest<C: Origin + Drop, W: Drop, R: Wait>(
    rt: &R,
    mut rest: Rest<C, W>,
    ends: &mut Vec<LoopRun<C, W>>,
)
    requires rest { IsRest rest }
    requires room { (vec_len ends.old ≡ 0) × (vec_len rest.shared ≤ vec_capacity ends.old) }
    ensures ends { (vec_len ends.new ≡ vec_len rest.shared) × EndsEach (vec_len rest.shared) rest.shared.items rest.members.items rest.seats.items ends.new.items }
    ensures room { vec_capacity ends.new ≡ vec_capacity ends.old }
{
    let Some(last) = rest.take_last() else {
        return;
    };
    end_rest(rt, rest, ends);
    ends.push_reserved(end_loop(rt, last.shared, last.member, last.seats));
}

impl<C: Origin + Drop, W: Drop> Joined<C, W> {
    /// Ends all loops, once their threads are joined. It waits for ever where a loop isn't quiet: where a bottom half is pending, an event
    /// is set, or a coroutine was scheduled and not entered. After a run each loop has had its turns until nothing was found to
    /// do. It takes no memory.
    pub fn end<R: Wait>(self, rt: &R, shared: Vec<LoopShared<C>>) -> Vec<LoopRun<C, W>>
        requires members { (vec_len self.members ≡ vec_len shared) × MembersEach (vec_len shared) shared.items self.members.items }
        requires row { IsRow shared.items self.row × HasNumbers 0 64 self.row }
        requires own { OwnEach (vec_len shared) self.row.seats.items }
        requires room { (vec_len self.ends ≡ 0) × (vec_len shared ≤ vec_capacity self.ends) }
        ensures { (vec_len result ≡ vec_len shared) × EndsEach (vec_len shared) shared.items self.members.items self.row.seats.items result.items }
    {
        let Joined {
            members,
            row,
            mut ends,
        } = self;
        let rest = Rest {
            shared,
            members,
            seats: row.seats,
        };
        end_rest(rt, rest, &mut ends);
        ends
    }
}
