//! The frames of a poll, the nested ones among them. Each takes the list once, and dequeues until nothing is out: a nested one
//! also what the frames around it had left. The parts of one turn are inlined into one another, so that a poll whose callbacks
//! don't nest has no call but theirs; what nests stands by itself.
ghost use Rattle.std.specs.Prelude.{◌≡◌, ◌+◌, ◌-◌, ◌*◌, ◌^◌, ◌<◌, ◌≤◌, ◌⊎◌, suc, min, not, ◌&&◌, ◌||◌, true, false, None, Some, [], option_map, length, MatchBool, MatchOption, if◌then◌else◌};
ghost use Rattle.aio_model.specs.Loop.InFlight.{AtRest};
ghost use Rattle.aio_model.specs.Loop.Flags.{are_due, is_lot};
ghost use Rattle.aio_model.specs.Loop.Lists.{out_of};
ghost use Rattle.aio_model.specs.Loop.Legal.{IsLegal};
ghost use Rattle.aio_model.specs.Loop.Frame.{Ended, Nests, Frame, EntersRunner, Body, lent_of, nests_above};
ghost use Rattle.aio_model.specs.Loop.Frame.{is_cut as is_cut_by};
ghost use Rattle.aio_core.specs.Words.{index_count};
ghost use Rattle.aio_core.specs.Standing.{Frees};
ghost use Rattle.aio_core.specs.Calls.{IsSeatOf, IsReady};
ghost use Rattle.aio_bh.specs.Running.{answer_by, RunsOnce};
ghost use Rattle.aio_bh.specs.OneShots.{IsPoolFor, FreesNone, GivesFreed};
ghost use Rattle.lot_pool.specs.Pools.{IsHomeOf};
ghost use Rattle.aio_bh.specs.PollFrames.{far, GoesFurther, CallsBody, FollowsDequeue, CanTake, IsBetween, FindsNone, MayEnd, TakesNext, BehindNest, noted};
ghost use Rattle.aio_core.specs.Known.{IsHomes};

use crate::call::Call;
use crate::polled::Polled;
use crate::runner::Runner;
use crate::turn::Turn;
use aio_core::{Dequeued, Home, Job, LoopTable, Seat};
use aio_model::Flags;
use lot_pool::{LotPass, LotPool};
use std::sync::Wait;

/// How many depths are below that of a poll that stands in no other.
pub const OUTERMOST: u32 = 7;

/// How many nested polls a callback may ask for with so many depths below its own.
#[inline(always)]
fn nests_allowed(deeper: u32) -> u32
    ensures { result ≡ nests_above deeper }
{
    if deeper == 0 { 0 } else { 4 }
}

/// Lends the home's seat for one entry into a callback. What that leaves of what it is lent is dropped.
#[inline(always)]
fn lend<J: Job + Drop, R: Runner<J>>(
    table: &LoopTable<J>,
    seat: &mut Seat<J>,
    runner: &mut R,
    call: Call<J>,
) -> Turn
    requires can_run { R.can_run runner.old table.now.sizes }
    requires seat { IsReady table.now seat.old }
    requires home { IsHomes seat.old.known }
    requires legal { IsLegal table.now.sizes seat.old.known.seen }
    requires index { call.bh < index_count table.now.sizes }
    requires handle { call.first ≡ true → call.job ≡ None → call.bh < table.now.sizes.handles }
    ensures can_run { R.can_run runner.new table.now.sizes }
    ensures seat { IsSeatOf table.now seat.new }
    ensures runs { RunsOnce R.does (lent_of call.bh (option_map J.number_of call.job) call.first call.nests_left) (answer_by result) runner.old seat.old.known runner.new seat.new.known }
{
    let mut call = call;
    runner.run(table, seat, &mut call)
}

/// Whether what had these flags is called.
#[inline(always)]
fn is_due(was: Flags) -> bool
    ensures { result ≡ are_due was }
{
    was.scheduled && !was.deleted
}

/// Whether it asked for a nested poll and gets none.
#[inline(always)]
fn is_cut(turn: Turn, nests: u32) -> bool
    ensures { result ≡ is_cut_by (answer_by turn) nests }
{
    turn == Turn::Nest && nests == 0
}

/// Whether it asked for a nested poll and gets one.
#[inline(always)]
fn gets_nest(turn: Turn, nests: u32) -> bool
    ensures yes { result ≡ true → (answer_by turn ≡ Nests) × (0 < nests) }
    ensures no { result ≡ false → (answer_by turn ≡ Ended) ⊎ (nests ≡ 0) }
{
    turn == Turn::Nest && nests > 0
}

impl Polled {
    /// A dequeue of what had these flags. A call is progress, unless it is idle.
    #[inline(always)]
    fn note_dequeue(&mut self, was: Flags)
        ensures { self.new ≡ record self.old { progress = self.old.progress || (are_due was && not was.idle) } }
    {
        if is_due(was) {
            self.progress = self.progress || !was.idle;
        }
    }

    #[inline(always)]
    fn note_first(&mut self, first: bool)
        ensures { self.new ≡ record self.old { ran = (if first then min (self.old.ran + 1) (2 ^ 64 - 1) else self.old.ran) } }
    {
        if first {
            self.ran = self.ran.saturating_add(1);
        }
    }

    #[inline(always)]
    fn note_cut(&mut self, cut: bool)
        ensures { self.new ≡ record self.old { cut_nests = (if cut then min (self.old.cut_nests + 1) (2 ^ 64 - 1) else self.old.cut_nests) } }
    {
        if cut {
            self.cut_nests = self.cut_nests.saturating_add(1);
        }
    }

    /// An entry into a callback that had so many nested polls left.
    #[inline(always)]
    fn note(&mut self, first: bool, turn: Turn, nests: u32)
        ensures { self.new ≡ noted first (answer_by turn) nests self.old }
    {
        self.note_first(first);
        self.note_cut(is_cut(turn, nests));
    }
}

/// Dequeues the first that is out. None where nothing is. So many depths are below.
#[inline(always)]
fn next<J: Job + Drop>(
    table: &LoopTable<J>,
    home: &mut Home<J>,
    polled: &mut Polled,
    deeper: u32,
) -> Option<Dequeued<J>>
    requires between { IsBetween table.now deeper home.old.seat }
    ensures between { IsBetween table.now deeper home.new.seat }
    ensures next { MatchOption result (FindsNone home.old.seat.known home.new.seat.known polled.old polled.new) (λ next. TakesNext next.bh (are_due next.flags) (option_map J.number_of next.job) home.old.seat.known home.new.seat.known polled.old polled.new) }
{
    let next = table.dequeue_next(home)?;
    polled.note_dequeue(next.flags);
    Some(next)
}

/// One entry into a callback. True where it gets a nested poll.
#[inline(always)]
fn enter<J: Job + Drop, R: Runner<J>>(
    table: &LoopTable<J>,
    home: &mut Home<J>,
    runner: &mut R,
    call: Call<J>,
    polled: &mut Polled,
    deeper: u32,
) -> bool
    requires can_run { R.can_run runner.old table.now.sizes }
    requires between { IsBetween table.now deeper home.old.seat }
    requires index { call.bh < index_count table.now.sizes }
    requires handle { call.first ≡ true → call.job ≡ None → call.bh < table.now.sizes.handles }
    ensures can_run { R.can_run runner.new table.now.sizes }
    ensures between { IsBetween table.now deeper home.new.seat }
    ensures same_out { out_of home.new.seat.known.seen ≡ out_of home.old.seat.known.seen }
    ensures frees_none { FreesNone home.old.seat.known home.new.seat.known }
    ensures nests { result ≡ true → (0 < call.nests_left) × GoesFurther (EntersRunner (lent_of call.bh (option_map J.number_of call.job) call.first call.nests_left) Nests) R.does (far home.old.seat.known runner.old polled.old) (far home.new.seat.known runner.new polled.new) }
    ensures ends { result ≡ false → GoesFurther (Body (Frame table.now.sizes deeper) call.bh (option_map J.number_of call.job) call.first call.nests_left) R.does (far home.old.seat.known runner.old polled.old) (far home.new.seat.known runner.new polled.new) }
{
    let (first, nests) = (call.first, call.nests_left);
    let turn = lend(table, &mut home.seat, runner, call);
    polled.note(first, turn, nests);
    gets_nest(turn, nests)
}

/// Enters the callback of what was dequeued, where it is due. True where it gets a nested poll.
#[inline(always)]
fn call<J: Job + Drop, R: Runner<J>>(
    table: &LoopTable<J>,
    home: &mut Home<J>,
    runner: &mut R,
    next: Dequeued<J>,
    polled: &mut Polled,
    deeper: u32,
) -> bool
    requires can_run { R.can_run runner.old table.now.sizes }
    requires between { IsBetween table.now deeper home.old.seat }
    requires index { next.bh < index_count table.now.sizes }
    requires handle { next.job ≡ None → next.bh < table.now.sizes.handles }
    ensures can_run { R.can_run runner.new table.now.sizes }
    ensures between { IsBetween table.now deeper home.new.seat }
    ensures same_out { out_of home.new.seat.known.seen ≡ out_of home.old.seat.known.seen }
    ensures frees_none { FreesNone home.old.seat.known home.new.seat.known }
    ensures nests { result ≡ true → (are_due next.flags ≡ true) × (0 < nests_above deeper) × GoesFurther (EntersRunner (lent_of next.bh (option_map J.number_of next.job) true (nests_above deeper)) Nests) R.does (far home.old.seat.known runner.old polled.old) (far home.new.seat.known runner.new polled.new) }
    ensures ends { result ≡ false → GoesFurther (CallsBody (Frame table.now.sizes deeper) (nests_above deeper) next.bh (option_map J.number_of next.job) (are_due next.flags)) R.does (far home.old.seat.known runner.old polled.old) (far home.new.seat.known runner.new polled.new) }
{
    if !is_due(next.flags) {
        return false;
    }
    let call = Call::first_entry(next.bh, next.job, nests_allowed(deeper));
    enter(table, home, runner, call, polled, deeper)
}

/// Ends the turn of a lot: its life is over, and the pool gets it back.
fn end_lot<J: Job + Drop, W: Wait>(
    rt: &W,
    table: &LoopTable<J>,
    pool: &LotPool,
    pass: &mut LotPass,
    home: &mut Home<J>,
    bh: u32,
)
    requires seat { IsSeatOf table.now home.old.seat }
    requires index { bh < index_count table.now.sizes }
    requires lot { table.now.sizes.handles ≤ bh }
    requires may_end { MayEnd table.now.sizes bh home.old.seat.known.seen }
    requires pool { IsPoolFor table.now.sizes pool.now }
    requires pass { IsHomeOf pool.now pass.old }
    ensures seat { IsSeatOf table.now home.new.seat }
    ensures ends { MatchBool (is_lot table.now.sizes bh) (Frees bh home.old.seat.known home.new.seat.known) (home.new.seat.known ≡ home.old.seat.known) }
    ensures pass { IsHomeOf pool.now pass.new }
    ensures gives { GivesFreed pool.now home.old.seat.known home.new.seat.known pass.old pass.new }
{
    table.free(home, bh);
    pool.give_back(rt, pass, bh);
}

/// Ends a turn: where it is of a lot, that one's life is over.
fn finish<J: Job + Drop, W: Wait>(
    rt: &W,
    table: &LoopTable<J>,
    pool: &LotPool,
    pass: &mut LotPass,
    home: &mut Home<J>,
    bh: u32,
)
    requires seat { IsSeatOf table.now home.old.seat }
    requires index { bh < index_count table.now.sizes }
    requires may_end { MayEnd table.now.sizes bh home.old.seat.known.seen }
    requires pool { IsPoolFor table.now.sizes pool.now }
    requires pass { IsHomeOf pool.now pass.old }
    ensures seat { IsSeatOf table.now home.new.seat }
    ensures ends { MatchBool (is_lot table.now.sizes bh) (Frees bh home.old.seat.known home.new.seat.known) (home.new.seat.known ≡ home.old.seat.known) }
    ensures pass { IsHomeOf pool.now pass.new }
    ensures gives { GivesFreed pool.now home.old.seat.known home.new.seat.known pass.old pass.new }
{
    if bh < table.handles() {
        return;
    }
    end_lot(rt, table, pool, pass, home, bh);
}

/// A nested poll, and then the further entry into the callback that asked for it, which had so many left.
#[cold]
#[inline(never)]
#[cycle(poll)]
fn nest<J: Job + Drop, R: Runner<J>, W: Wait>(
    rt: &W,
    table: &LoopTable<J>,
    pool: &LotPool,
    pass: &mut LotPass,
    home: &mut Home<J>,
    runner: &mut R,
    bh: u32,
    nests: u32,
    polled: &mut Polled,
    deeper: u32,
)
    requires can_run { R.can_run runner.old table.now.sizes }
    requires between { IsBetween table.now deeper home.old.seat }
    requires index { bh < index_count table.now.sizes }
    requires nests { (0 < nests) × (nests ≤ nests_above deeper) }
    requires pool { IsPoolFor table.now.sizes pool.now }
    requires pass { IsHomeOf pool.now pass.old }
    ensures can_run { R.can_run runner.new table.now.sizes }
    ensures between { IsBetween table.now deeper home.new.seat }
    ensures fewer { length (out_of home.new.seat.known.seen) ≤ length (out_of home.old.seat.known.seen) }
    ensures goes { GoesFurther (BehindNest (Frame table.now.sizes deeper) bh (nests - 1)) R.does (far home.old.seat.known runner.old polled.old) (far home.new.seat.known runner.new polled.new) }
    ensures pass { IsHomeOf pool.now pass.new }
    ensures gives { GivesFreed pool.now home.old.seat.known home.new.seat.known pass.old pass.new }
{
    frame(rt, table, pool, pass, home, runner, polled, deeper - 1);
    let call = Call::further_entry(bh, nests - 1);
    if enter(table, home, runner, call, polled, deeper) {
        nest(
            rt,
            table,
            pool,
            pass,
            home,
            runner,
            bh,
            nests - 1,
            polled,
            deeper,
        );
    }
}

/// What follows a dequeue in its turn. A handle that doesn't nest needs nothing that may wait.
#[inline(always)]
#[cycle(poll)]
fn turn<J: Job + Drop, R: Runner<J>, W: Wait>(
    rt: &W,
    table: &LoopTable<J>,
    pool: &LotPool,
    pass: &mut LotPass,
    home: &mut Home<J>,
    runner: &mut R,
    next: Dequeued<J>,
    polled: &mut Polled,
    deeper: u32,
)
    requires can_run { R.can_run runner.old table.now.sizes }
    requires between { IsBetween table.now deeper home.old.seat }
    requires index { next.bh < index_count table.now.sizes }
    requires handle { next.job ≡ None → next.bh < table.now.sizes.handles }
    requires may_end { MayEnd table.now.sizes next.bh home.old.seat.known.seen }
    requires pool { IsPoolFor table.now.sizes pool.now }
    requires pass { IsHomeOf pool.now pass.old }
    ensures can_run { R.can_run runner.new table.now.sizes }
    ensures between { IsBetween table.now deeper home.new.seat }
    ensures fewer { length (out_of home.new.seat.known.seen) ≤ length (out_of home.old.seat.known.seen) }
    ensures goes { GoesFurther (FollowsDequeue table.now.sizes (Frame table.now.sizes deeper) (nests_above deeper) next.bh (option_map J.number_of next.job) (are_due next.flags)) R.does (far home.old.seat.known runner.old polled.old) (far home.new.seat.known runner.new polled.new) }
    ensures pass { IsHomeOf pool.now pass.new }
    ensures gives { GivesFreed pool.now home.old.seat.known home.new.seat.known pass.old pass.new }
{
    let bh = next.bh;
    if call(table, home, runner, next, polled, deeper) {
        nest(
            rt,
            table,
            pool,
            pass,
            home,
            runner,
            bh,
            nests_allowed(deeper),
            polled,
            deeper,
        );
        finish(rt, table, pool, pass, home, bh);
    } else if bh >= table.handles() {
        end_lot(rt, table, pool, pass, home, bh);
    }
}

/// A poll with so many depths below its own.
#[inline(always)]
#[cycle(poll)]
pub fn frame<J: Job + Drop, R: Runner<J>, W: Wait>(
    rt: &W,
    table: &LoopTable<J>,
    pool: &LotPool,
    pass: &mut LotPass,
    home: &mut Home<J>,
    runner: &mut R,
    polled: &mut Polled,
    deeper: u32,
)
    requires can_run { R.can_run runner.old table.now.sizes }
    requires can_take { CanTake table.now deeper home.old.seat }
    requires pool { IsPoolFor table.now.sizes pool.now }
    requires pass { IsHomeOf pool.now pass.old }
    ensures can_run { R.can_run runner.new table.now.sizes }
    ensures between { IsBetween table.now deeper home.new.seat }
    ensures none_out { out_of home.new.seat.known.seen ≡ [] }
    ensures goes { GoesFurther (Frame table.now.sizes (suc deeper)) R.does (far home.old.seat.known runner.old polled.old) (far home.new.seat.known runner.new polled.new) }
    ensures pass { IsHomeOf pool.now pass.new }
    ensures gives { GivesFreed pool.now home.old.seat.known home.new.seat.known pass.old pass.new }
{
    table.take(home);
    while let Some(next) = next(table, home, polled, deeper) {
        turn(rt, table, pool, pass, home, runner, next, polled, deeper);
    }
}
