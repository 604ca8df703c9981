//! Two loops carried by one thread, a turn of each by turns.
ghost use Rattle.std.specs.Prelude.{◌≡◌, ◌<◌, ◌∷◌, [], length, IfOk};
ghost use Rattle.co_loop.specs.Rows.{AreSeatsOfLoops, AreOfOrigin};
ghost use Rattle.co_loop_tests.specs.Loops.{IsOpened, AreEndsOf, IsBetweenTurns};

use crate::opened::{Ends, Opened, PLAYERS, open_side, open_with};
use crate::players::{Player, Stage};
use aio_loop::AioLoop;
use aio_words::StepClock;
use co_loop::{CoLoop, Crew};
use co_state::{Co, Origin};
use loop_rows::{LoopShared, Seats};
use std::alloc::{AllocError, Global};
use std::sync::Wait;
use std::sync::atomic::AtomicU64;
use std::test::Fail;

/// A loop with coroutines on it, its clock, and how many of its turns slept.
#[derive(Drop)]
struct Carried<'a, C: Origin, E, W> {
    here: CoLoop<'a, C, E, W>,
    aio: AioLoop<'a, ()>,
    clock: StepClock,
    slept: u64,
}

fn turn<C: Co<E> + Drop, E, W: Wait>(carried: &mut Carried<'_, C, E, W>, block: bool)
    requires { IsBetweenTurns C.is_of (C.source_of carried.old.here.env.now) carried.old.here.shared.now carried.old.here.crew carried.old.here.home carried.old.here.run carried.old.aio.table.now carried.old.aio.pool.now carried.old.aio.lot_pass carried.old.aio.home.seat carried.old.aio.side }
    ensures { IsBetweenTurns C.is_of (C.source_of carried.new.here.env.now) carried.new.here.shared.now carried.new.here.crew carried.new.here.home carried.new.here.run carried.new.aio.table.now carried.new.aio.pool.now carried.new.aio.lot_pass carried.new.aio.home.seat carried.new.aio.side }
{
    let turned = carried
        .here
        .turn(&mut carried.aio, &mut carried.clock, block);
    carried.slept = carried.slept.wrapping_add(u64::from(turned.slept));
}

/// So many turns of each. Those of the first may block.
fn turns<C: Co<E> + Drop, E, W: Wait>(
    first: &mut Carried<'_, C, E, W>,
    second: &mut Carried<'_, C, E, W>,
    count: u32,
    block: bool,
)
    requires first { IsBetweenTurns C.is_of (C.source_of first.old.here.env.now) first.old.here.shared.now first.old.here.crew first.old.here.home first.old.here.run first.old.aio.table.now first.old.aio.pool.now first.old.aio.lot_pass first.old.aio.home.seat first.old.aio.side }
    requires second { IsBetweenTurns C.is_of (C.source_of second.old.here.env.now) second.old.here.shared.now second.old.here.crew second.old.here.home second.old.here.run second.old.aio.table.now second.old.aio.pool.now second.old.aio.lot_pass second.old.aio.home.seat second.old.aio.side }
{
    for _ in 0..count {
        turn(first, block);
        turn(second, false);
    }
}

/// What a run left of one loop: of each player that ended, how many resumes it had and which of all resumes was its last.
#[derive(Clone, Copy, Debug, PartialEq, Eq)]
pub(crate) struct Outcome {
    pub(crate) ended: [Option<(usize, u64)>; 3],
    pub(crate) done: u64,
    pub(crate) now: u64,
    pub(crate) slept: u64,
    pub(crate) is_ended: bool,
}

fn ended(crew: &Crew<Player>, co: usize) -> Option<(usize, u64)> {
    match crew.ended.get(co) {
        Some(Some(player)) => Some((player.next, player.last)),
        _ => None,
    }
}

fn outcome_of<W>(carried: &Carried<'_, Player, Stage, W>) -> Outcome {
    let crew = &carried.here.crew;
    Outcome {
        ended: [ended(crew, 0), ended(crew, 1), ended(crew, 2)],
        done: crew.done,
        now: carried.clock.now,
        slept: carried.slept,
        is_ended: carried.here.is_ended,
    }
}

fn both(
    alloc: Global,
    first: Seats<Player>,
    second: Seats<Player>,
) -> Result<Vec<Seats<Player>>, AllocError>
    ensures { IfOk result (λ seats. seats.items ≡ first ∷ second ∷ []) }
{
    let mut seats = Vec::with_capacity(alloc, 2)?;
    seats.push(first)?;
    seats.push(second)?;
    Ok(seats)
}

/// One loop of these, before its first turn.
fn carry<'a, W: Wait>(
    rt: &'a W,
    alloc: Global,
    stage: &'a Stage,
    shared: &'a [LoopShared<Player>],
    own: u32,
    seats: Vec<Seats<Player>>,
    ends: Ends,
) -> Result<Carried<'a, Player, Stage, W>, Fail>
    requires row { AreSeatsOfLoops 4 shared.now seats.items }
    requires of { AreOfOrigin tt shared.now }
    requires own { own < length shared.now }
    requires here { AreEndsOf shared.now own ends.home.seat ends.lot_pass ends.co_home ends.run }
    ensures { IfOk result (λ c. IsBetweenTurns (λ _ _ _. Unit {0}) tt c.here.shared.now c.here.crew c.here.home c.here.run c.aio.table.now c.aio.pool.now c.aio.lot_pass c.aio.home.seat c.aio.side) }
{
    let side = open_side(alloc)?;
    let Ok(crew) = Crew::build(alloc, own, PLAYERS, seats) else {
        return Err(Fail::from("no memory"));
    };
    let at = &shared[own as usize];
    Ok(Carried {
        here: CoLoop::new(rt, stage, shared, crew, ends.co_home, ends.run),
        aio: AioLoop {
            table: &at.bottoms,
            pool: &at.pool,
            lot_pass: ends.lot_pass,
            home: ends.home,
            side,
        },
        clock: StepClock { now: 0 },
        slept: 0,
    })
}

/// So many turns of each of two loops.
fn play_with<W: Wait>(
    rt: &W,
    alloc: Global,
    shared: &[LoopShared<Player>],
    seats: Vec<Seats<Player>>,
    others: Vec<Seats<Player>>,
    first: Ends,
    second: Ends,
    count: u32,
    block: bool,
) -> Result<(Outcome, Outcome), Fail>
    requires row { AreSeatsOfLoops 4 shared.now seats.items }
    requires others { AreSeatsOfLoops 4 shared.now others.items }
    requires of { AreOfOrigin tt shared.now }
    requires two { 1 < length shared.now }
    requires first { AreEndsOf shared.now 0 first.home.seat first.lot_pass first.co_home first.run }
    requires second { AreEndsOf shared.now 1 second.home.seat second.lot_pass second.co_home second.run }
{
    let stage = Stage {
        resumes: AtomicU64::new(0),
    };
    let mut one = carry(rt, alloc, &stage, shared, 0, seats, first)?;
    let mut other = carry(rt, alloc, &stage, shared, 1, others, second)?;
    turns(&mut one, &mut other, count, block);
    Ok((outcome_of(&one), outcome_of(&other)))
}

/// So many turns of two loops that were opened.
fn play<W: Wait>(
    rt: &W,
    alloc: Global,
    first: Opened,
    second: Opened,
    count: u32,
    block: bool,
) -> Result<(Outcome, Outcome), Fail>
    requires first { IsOpened first.shared first.seats first.others first.ends.home.seat first.ends.lot_pass first.ends.co_home first.ends.run }
    requires second { IsOpened second.shared second.seats second.others second.ends.home.seat second.ends.lot_pass second.ends.co_home second.ends.run }
{
    let (Ok(seats), Ok(others)) = (
        both(alloc, first.seats, second.seats),
        both(alloc, first.others, second.others),
    ) else {
        return Err(Fail::from("no memory"));
    };
    let shared = [first.shared, second.shared];
    play_with(
        rt,
        alloc,
        &shared,
        seats,
        others,
        first.ends,
        second.ends,
        count,
        block,
    )
}

/// So many turns of each of two loops, to which these players were posted before, in their order. Where there is none, a wake is.
/// Turns of the first may block.
pub(crate) fn played<W: Wait>(
    rt: &W,
    alloc: Global,
    firsts: &[(u32, Option<Player>)],
    seconds: &[(u32, Option<Player>)],
    count: u32,
    block: bool,
) -> Result<(Outcome, Outcome), Fail> {
    let first = open_with(rt, alloc, firsts)?;
    let second = open_with(rt, alloc, seconds)?;
    play(rt, alloc, first, second, count, block)
}
