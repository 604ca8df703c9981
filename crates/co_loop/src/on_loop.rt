//! The runner of a loop's turns: what its callbacks do with the coroutines.
ghost use Rattle.std.specs.Prelude.{◌≡◌, ◌<◌, ◌||◌, ◌==◌, length};
ghost use Rattle.co_loop.specs.Crews.{far, IsCrew, SameCrew};
ghost use Rattle.co_loop.specs.Begins.{home_far};
ghost use Rattle.co_loop.specs.Rows.{AreSeatsOfLoops, AreOfOrigin};
ghost use Rattle.co_loop.specs.Building.{IsNewCrew};
ghost use Rattle.co_loop.specs.Loops.{IsOnLoop, IsNewHome, AnswersHandle, ExpiresFor};

use crate::beginning::take_and_begin;
use crate::crew::Crew;
use crate::draining::enter;
use crate::napping::is_napping;
use crate::quitting::END;
use aio_bh::{Call, Turn};
use aio_core::{LoopTable, Seat};
use aio_loop::{LoopRunner, Ready, Side, TimerId};
use co_schedule::{CoHome, CoRun};
use co_state::{Co, Origin};
use loop_rows::LoopShared;
use std::sync::Wait;

/// The bottom half whose callback takes the list of coroutines.
const HANDLE: u32 = 0;

/// The coroutines of one loop with all that its home thread needs to enter them. It is the runner of that loop's turns: handle 0 takes
/// and begins what was scheduled here, event 0 ends the run, and timer `co`, one for each coroutine, ends the sleep of coroutine `co`. What it wakes and sends
/// goes through the seats of its crew.
#[derive(Drop)]
pub struct CoLoop<'a, C: Origin, E, W> {
    pub rt: &'a W,
    /// What is lent at each resume.
    pub env: &'a E,
    /// All loops, in the order of their numbers.
    pub shared: &'a [LoopShared<C>],
    pub crew: Crew<C>,
    pub home: CoHome<C>,
    pub run: CoRun,
    /// Whether event 0 was found set.
    pub is_ended: bool,
}

impl<'a, C: Co<E>, E, W> CoLoop<'a, C, E, W> {
    /// The loop of the crew's number, with nobody on it yet.
    pub fn new(
        rt: &'a W,
        env: &'a E,
        shared: &'a [LoopShared<C>],
        crew: Crew<C>,
        home: CoHome<C>,
        run: CoRun,
    ) -> CoLoop<'a, C, E, W>
        requires crew { IsNewCrew (C.source_of env.now) crew }
        requires row { AreSeatsOfLoops crew.coroutines shared.now crew.seats.items }
        requires of { AreOfOrigin (C.source_of env.now) shared.now }
        requires own { crew.own < length shared.now }
        requires home { IsNewHome shared.now crew.own home run }
        ensures fits { IsOnLoop C.is_of (C.source_of result.env.now) result.shared.now result.crew result.home result.run }
        ensures place { (result.shared ≡ shared.entry) × (result.env ≡ env.entry) × (result.crew ≡ crew) × (result.home ≡ home) }
    {
        CoLoop {
            rt,
            env,
            shared,
            crew,
            home,
            run,
            is_ended: false,
        }
    }
}

/// What the callback of a bottom half does.
fn answer_handle<C: Co<E> + Drop, E, W: Wait>(
    rt: &W,
    env: &E,
    shared: &[LoopShared<C>],
    crew: &mut Crew<C>,
    home: &mut CoHome<C>,
    run: &mut CoRun,
    call: &Call<()>,
)
    requires fits { IsOnLoop C.is_of (C.source_of env.now) shared.now crew.old home.old run.old }
    ensures fits { IsOnLoop C.is_of (C.source_of env.now) shared.now crew.new home.new run.new }
    ensures same { SameCrew crew.old crew.new }
    ensures answers { AnswersHandle C.is_of C.resumes crew.old.own crew.old.coroutines (length shared.now) call.now.bh (home_far (far crew.old) home.old.known) (home_far (far crew.new) home.new.known) }
{
    if call.bh == HANDLE {
        let table = &shared[crew.own as usize].coroutines;
        take_and_begin(rt, env, shared, table, crew, home, run, call);
    }
}

/// What the expiry of a timer does. A timer whose coroutine was woken meanwhile does nothing.
fn expire<C: Co<E> + Drop, E, W: Wait>(
    rt: &W,
    env: &E,
    shared: &[LoopShared<C>],
    crew: &mut Crew<C>,
    co: u32,
)
    requires crew { IsCrew C.is_of shared.now crew.old }
    requires origin { C.source_of env.now ≡ crew.old.store.origin }
    ensures crew { IsCrew C.is_of shared.now crew.new }
    ensures same { SameCrew crew.old crew.new }
    ensures origin { crew.new.store.origin ≡ crew.old.store.origin }
    ensures expires { ExpiresFor C.is_of C.resumes crew.old.own crew.old.coroutines (length shared.now) co (far crew.old) (far crew.new) }
{
    if is_napping(&crew.naps, co) {
        enter(rt, env, shared, crew, co);
    }
}

/// Whether the run is to end: once its event was found set it is.
fn ends(is_ended: bool, event: u32) -> bool
    ensures { result ≡ (is_ended || event == 0) }
{
    is_ended || event == END
}

impl<'a, C: Co<E> + Drop, E, W: Wait> LoopRunner<()> for CoLoop<'a, C, E, W> {
    ghost use Rattle.std.specs.Prelude.{◌≡◌, ◌≤◌};
    ghost use Rattle.co_loop.specs.Crews.{far};
    ghost use Rattle.co_loop.specs.Begins.{home_far};
    ghost use Rattle.co_loop.specs.Loops.{IsOnLoop, RunnerDoes, on_loop};

    ghost can_run = { λ e _ timers. IsOnLoop C.is_of (C.source_of e.env.now) e.shared.now e.crew e.home e.run × (e.crew.coroutines ≤ timers) };

    ghost does = { λ before entered after. (after.shared ≡ before.shared) × (after.env ≡ before.env) × RunnerDoes C.is_of C.resumes before.shared.now entered (on_loop before.crew before.home before.is_ended) (on_loop after.crew after.home after.is_ended) };

    fn bottom(
        &mut self,
        _table: &LoopTable<()>,
        _seat: &mut Seat<()>,
        _side: &mut Side,
        call: &mut Call<()>,
    ) -> Turn {
        answer_handle(
            self.rt,
            self.env,
            self.shared,
            &mut self.crew,
            &mut self.home,
            &mut self.run,
            call,
        );
        Turn::Done
    }

    fn ready(
        &mut self,
        _table: &LoopTable<()>,
        _seat: &mut Seat<()>,
        _side: &mut Side,
        ready: Ready,
    ) {
        self.is_ended = ends(self.is_ended, ready.event);
    }

    fn expired(
        &mut self,
        _table: &LoopTable<()>,
        _seat: &mut Seat<()>,
        _side: &mut Side,
        id: TimerId,
    ) {
        expire(self.rt, self.env, self.shared, &mut self.crew, id.number);
    }
}
