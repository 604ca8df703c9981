//! Entering a coroutine, and then all that were woken at home meanwhile, each as soon as the one before has yielded.
ghost use Rattle.std.specs.Prelude.{◌≡◌, ◌<◌, length, MatchBool, drop, Some};
ghost use Rattle.aio_chain.specs.LinkList.{first_of};
ghost use Rattle.co_loop.specs.Crews.{far, IsCrew, SameCrew};
ghost use Rattle.co_loop.specs.Drains.{EntersNext, DrainsAll, EntersAndDrains};

use crate::crew::Crew;
use crate::entering::enter_one;
use co_state::Co;
use loop_rows::LoopShared;
use std::sync::Wait;

/// Enters the one that was woken first. False where nobody was.
fn enter_next<C: Co<E> + Drop, E, W: Wait>(
    rt: &W,
    env: &E,
    shared: &[LoopShared<C>],
    crew: &mut Crew<C>,
) -> bool
    requires crew { IsCrew C.is_of shared.now crew.old }
    requires origin { C.source_of env.now ≡ crew.old.store.origin }
    ensures crew { IsCrew C.is_of shared.now crew.new }
    ensures same { SameCrew crew.old crew.new }
    ensures origin { crew.new.store.origin ≡ crew.old.store.origin }
    ensures enters { EntersNext C.is_of C.resumes crew.old.own crew.old.coroutines (length shared.now) result (far crew.old) (far crew.new) }
{
    let Some(co) = crew.woken.next() else {
        return false;
    };
    enter_one(rt, env, shared, crew, co);
    true
}

/// Enters those that were woken, one after another, until nobody is.
pub(crate) fn drain<C: Co<E> + Drop, E, W: Wait>(
    rt: &W,
    env: &E,
    shared: &[LoopShared<C>],
    crew: &mut Crew<C>,
)
    requires crew { IsCrew C.is_of shared.now crew.old }
    requires origin { C.source_of env.now ≡ crew.old.store.origin }
    ensures crew { IsCrew C.is_of shared.now crew.new }
    ensures same { SameCrew crew.old crew.new }
    ensures origin { crew.new.store.origin ≡ crew.old.store.origin }
    ensures drains { DrainsAll C.is_of C.resumes crew.old.own crew.old.coroutines (length shared.now) (far crew.old) (far crew.new) }
{
    for _ in rt.forever() {
        if !enter_next(rt, env, shared, crew) {
            return;
        }
    }
    unreachable!()
}

/// Enters the coroutine of this number, and then those that were woken.
pub(crate) fn enter<C: Co<E> + Drop, E, W: Wait>(
    rt: &W,
    env: &E,
    shared: &[LoopShared<C>],
    crew: &mut Crew<C>,
    co: u32,
)
    requires crew { IsCrew C.is_of shared.now crew.old }
    requires below { co < crew.old.coroutines }
    requires origin { C.source_of env.now ≡ crew.old.store.origin }
    ensures crew { IsCrew C.is_of shared.now crew.new }
    ensures same { SameCrew crew.old crew.new }
    ensures origin { crew.new.store.origin ≡ crew.old.store.origin }
    ensures enters { EntersAndDrains C.is_of C.resumes crew.old.own crew.old.coroutines (length shared.now) co (far crew.old) (far crew.new) }
{
    enter_one(rt, env, shared, crew, co);
    drain(rt, env, shared, crew);
}
