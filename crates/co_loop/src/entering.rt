//! Entering one coroutine, after qemu_aio_coroutine_enter of QEMU's util/qemu-coroutine.c. What it asked for is carried out after its
//! resume.
ghost use Rattle.std.specs.Prelude.{◌≡◌, ◌<◌, length, None};
ghost use Rattle.std.specs.FinMap as map;
ghost use Rattle.co_loop.specs.Crews.{far, destination, IsCrew, SameCrew, SendsOn, FollowsEntered, CarriesOut, EntersOne};
ghost use Rattle.co_loop.specs.Answers.{IsFollowable};
ghost use Rattle.aio_model.specs.Counts.{one_more};

use crate::crew::Crew;
use crate::leaving::kept;
use crate::naps::Nap;
use crate::posting::post_to;
use crate::quitting::set_ends;
use crate::waking::wake_each;
use aio_model::Cause;
use co_schedule::Already;
use co_state::{Co, Cx, Entered, Origin};
use loop_rows::LoopShared;
use std::sync::Wait;

/// Where a coroutine goes that is to move: one that names a loop that doesn't exist comes back to its own.
fn destination(to: u32, loops: usize, own: u32) -> u32
    ensures { result ≡ destination own loops to }
{
    if (to as usize) < loops { to } else { own }
}

/// One more, up to the greatest.
fn one_more(count: u64) -> u64
    ensures { result ≡ one_more count }
{
    count.saturating_add(1)
}

/// Posts a coroutine that is to move, and keeps it where its number has a mark there.
pub(crate) fn send_on<C: Origin + Drop, W: Wait>(
    rt: &W,
    shared: &[LoopShared<C>],
    crew: &mut Crew<C>,
    co: u32,
    state: C,
    to: u32,
)
    requires crew { IsCrew C.is_of shared.now crew.old }
    requires below { co < crew.old.coroutines }
    requires to { to < length shared.now }
    requires of { C.is_of co state crew.old.store.origin }
    requires apart { map.get crew.old.store.held co ≡ None }
    ensures crew { IsCrew C.is_of shared.now crew.new }
    ensures same { SameCrew crew.old crew.new }
    ensures sends { SendsOn to co state (far crew.old) (far crew.new) }
{
    if let Err(Already { mark: _, state }) = post_to(
        rt,
        shared,
        &mut crew.seats,
        crew.coroutines,
        to,
        co,
        Cause::Move,
        Some(state),
    ) {
        crew.leaving[co as usize] = kept(to, state);
    }
}

/// Does what the answer to a resume asks for.
fn follow<C: Origin + Drop, W: Wait>(
    rt: &W,
    shared: &[LoopShared<C>],
    crew: &mut Crew<C>,
    co: u32,
    entered: Entered<C>,
)
    requires crew { IsCrew C.is_of shared.now crew.old }
    requires below { co < crew.old.coroutines }
    requires of { IsFollowable C.is_of co crew.old.store entered }
    ensures crew { IsCrew C.is_of shared.now crew.new }
    ensures same { SameCrew crew.old crew.new }
    ensures follows { FollowsEntered crew.old.own (length shared.now) co entered (far crew.old) (far crew.new) }
{
    match entered {
        Entered::Done(state) => {
            crew.ended[co as usize] = Some(state);
            crew.done = one_more(crew.done);
        }
        Entered::Slept(ns) => crew.naps[co as usize] = Nap::Asked(ns),
        Entered::Moving(state, to) => {
            let to = destination(to, shared.len(), crew.own);
            send_on(rt, shared, crew, co, state, to);
        }
        Entered::Yielded | Entered::Absent => {}
    }
}

/// Carries out what a resume asked for: the wakes, and then the quit mark.
fn carry_out<C: Origin + Drop, W: Wait>(
    rt: &W,
    shared: &[LoopShared<C>],
    crew: &mut Crew<C>,
    cx: &mut Cx,
)
    requires crew { IsCrew C.is_of shared.now crew.old }
    ensures crew { IsCrew C.is_of shared.now crew.new }
    ensures same { SameCrew crew.old crew.new }
    ensures carries { CarriesOut crew.old.own crew.old.coroutines (length shared.now) cx.old (far crew.old) (far crew.new) }
{
    wake_each(
        rt,
        shared,
        &mut crew.seats,
        &mut crew.woken,
        crew.coroutines,
        crew.own,
        cx,
    );
    if cx.quits() {
        set_ends(shared, &mut crew.seats, crew.coroutines);
        crew.quits = true;
    }
}

/// Resumes the coroutine of this number once, if it is here. Whether it sleeps or not, it is awake then.
pub(crate) fn enter_one<C: Co<E> + Drop, E, W: Wait>(
    rt: &W,
    env: &E,
    shared: &[LoopShared<C>],
    crew: &mut Crew<C>,
    co: u32,
)
    requires crew { IsCrew C.is_of shared.now crew.old }
    requires below { co < crew.old.coroutines }
    requires origin { C.source_of env.now ≡ crew.old.store.origin }
    ensures crew { IsCrew C.is_of shared.now crew.new }
    ensures same { SameCrew crew.old crew.new }
    ensures origin { crew.new.store.origin ≡ crew.old.store.origin }
    ensures enters { EntersOne C.is_of C.resumes crew.old.own crew.old.coroutines (length shared.now) co (far crew.old) (far crew.new) }
{
    let mut cx = Cx::fresh();
    let entered = crew.store.enter(co, env, &mut cx);
    if let Entered::Absent = entered {
        return;
    }
    crew.naps[co as usize] = Nap::Awake;
    follow(rt, shared, crew, co, entered);
    carry_out(rt, shared, crew, &mut cx);
}
