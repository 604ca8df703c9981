//! What the callback of handle 0 does: it takes the list of coroutines that were scheduled here and begins them in order of pushing,
//! after co_schedule_bh_cb of QEMU's util/async.c.
ghost use Rattle.std.specs.Prelude.{◌≡◌, ◌<◌, ◌≤◌, length, [], Some, None};
ghost use Rattle.std.specs.FinMap as map;
ghost use Rattle.co_schedule.specs.Calls.{IsSeatOf};
ghost use Rattle.co_loop.specs.Crews.{far, IsCrew, SameCrew};
ghost use Rattle.co_loop.specs.Begins.{home_far, is_refused, IsHomeRun, Admits, AdmitsGiven, BeginsNext, BeginsThese, TakesAndBegins};
ghost use Rattle.co_schedule.specs.Parcels.{IsStateOf};

use crate::crew::Crew;
use crate::draining::enter;
use aio_bh::Call;
use co_schedule::{CoHome, CoRun, CoTable};
use co_state::{Co, Origin};
use loop_rows::LoopShared;
use std::sync::Wait;

/// Puts a state that came to this loop into its store. Where its number is here already it goes to the ended, and isn't entered.
fn admit<C: Origin + Drop>(crew: &mut Crew<C>, co: u32, state: C)
    requires below { co < length crew.old.leaving.items }
    requires within { co < length crew.old.ended.items }
    requires of { C.is_of co state crew.old.store.origin }
    ensures same { SameCrew crew.old crew.new }
    ensures admits { Admits co state (far crew.old) (far crew.new) }
    ensures others { (crew.new.woken ≡ crew.old.woken) × (crew.new.seats ≡ crew.old.seats) × (crew.new.naps ≡ crew.old.naps) × (crew.new.leaving ≡ crew.old.leaving) }
{
    if crew.leaving[co as usize].is_some() {
        crew.ended[co as usize] = Some(state);
        return;
    }
    if let Err(back) = crew.store.put(co, state) {
        crew.ended[co as usize] = Some(back);
    }
}

/// The same of one that may have brought a state.
fn admit_given<C: Origin + Drop>(
    shared: &[LoopShared<C>],
    crew: &mut Crew<C>,
    co: u32,
    given: Option<C>,
)
    requires crew { IsCrew C.is_of shared.now crew.old }
    requires below { co < crew.old.coroutines }
    requires of { IsStateOf C.is_of co crew.old.store.origin given }
    ensures crew { IsCrew C.is_of shared.now crew.new }
    ensures same { SameCrew crew.old crew.new }
    ensures origin { crew.new.store.origin ≡ crew.old.store.origin }
    ensures admits { AdmitsGiven co given (far crew.old) (far crew.new) }
{
    let _shared = shared;
    if let Some(state) = given {
        admit(crew, co, state);
    }
}

/// Begins the next one of the run, and enters it and those that it woke. False at the end of the run.
fn begin_next<C: Co<E> + Drop, E, W: Wait>(
    rt: &W,
    env: &E,
    shared: &[LoopShared<C>],
    table: &CoTable<C>,
    crew: &mut Crew<C>,
    home: &mut CoHome<C>,
    run: &mut CoRun,
) -> bool
    requires crew { IsCrew C.is_of shared.now crew.old }
    requires origin { C.source_of env.now ≡ crew.old.store.origin }
    requires table { (table.now.coroutines ≡ crew.old.coroutines) × (table.now.origin ≡ crew.old.store.origin) }
    requires home { IsHomeRun table.now home.old run.old }
    ensures crew { IsCrew C.is_of shared.now crew.new }
    ensures same { SameCrew crew.old crew.new }
    ensures origin { crew.new.store.origin ≡ crew.old.store.origin }
    ensures home { IsHomeRun table.now home.new run.new }
    ensures begins { BeginsNext C.is_of C.resumes crew.old.own crew.old.coroutines (length shared.now) result (home_far (far crew.old) home.old.known) (home_far (far crew.new) home.new.known) }
{
    let Some((co, given)) = table.begin(home, run) else {
        return false;
    };
    admit_given(shared, crew, co, given);
    enter(rt, env, shared, crew, co);
    true
}

/// Begins all of the run, in order of pushing.
fn begin_all<C: Co<E> + Drop, E, W: Wait>(
    rt: &W,
    env: &E,
    shared: &[LoopShared<C>],
    table: &CoTable<C>,
    crew: &mut Crew<C>,
    home: &mut CoHome<C>,
    run: &mut CoRun,
)
    requires crew { IsCrew C.is_of shared.now crew.old }
    requires origin { C.source_of env.now ≡ crew.old.store.origin }
    requires table { (table.now.coroutines ≡ crew.old.coroutines) × (table.now.origin ≡ crew.old.store.origin) }
    requires home { IsHomeRun table.now home.old run.old }
    ensures crew { IsCrew C.is_of shared.now crew.new }
    ensures same { SameCrew crew.old crew.new }
    ensures origin { crew.new.store.origin ≡ crew.old.store.origin }
    ensures home { IsHomeRun table.now home.new run.new }
    ensures idle { home.new.known.stage.taken ≡ [] }
    ensures begins { BeginsThese C.is_of C.resumes crew.old.own crew.old.coroutines (length shared.now) home.old.known.stage.taken (home_far (far crew.old) home.old.known) (home_far (far crew.new) home.new.known) }
{
    for _ in rt.forever() {
        if !begin_next(rt, env, shared, table, crew, home, run) {
            return;
        }
    }
    unreachable!()
}

/// Takes all that was scheduled here, and begins it.
pub(crate) fn take_and_begin<C: Co<E> + Drop, E, W: Wait>(
    rt: &W,
    env: &E,
    shared: &[LoopShared<C>],
    table: &CoTable<C>,
    crew: &mut Crew<C>,
    home: &mut CoHome<C>,
    run: &mut CoRun,
    call: &Call<()>,
)
    requires crew { IsCrew C.is_of shared.now crew.old }
    requires origin { C.source_of env.now ≡ crew.old.store.origin }
    requires table { (table.now.coroutines ≡ crew.old.coroutines) × (table.now.origin ≡ crew.old.store.origin) }
    requires home { IsHomeRun table.now home.old run.old }
    requires idle { home.old.known.stage.taken ≡ [] }
    requires handle { call.now.bh ≡ 0 }
    ensures crew { IsCrew C.is_of shared.now crew.new }
    ensures same { SameCrew crew.old crew.new }
    ensures origin { crew.new.store.origin ≡ crew.old.store.origin }
    ensures home { IsHomeRun table.now home.new run.new }
    ensures idle { home.new.known.stage.taken ≡ [] }
    ensures takes { TakesAndBegins C.is_of C.resumes crew.old.own crew.old.coroutines (length shared.now) (home_far (far crew.old) home.old.known) (home_far (far crew.new) home.new.known) }
{
    table.take_all(home, run, call);
    begin_all(rt, env, shared, table, crew, home, run);
}
