//! One thread for each loop. A loop for which none can be started is carried by the caller, in rounds of turns that don't block.
ghost use Rattle.std.specs.Prelude.{◌≡◌, ◌<◌, ◌≤◌, ◌+◌, length, true, vec_len, vec_capacity};
ghost use Rattle.co_loop.specs.Rows.{AreOfOrigin};
ghost use Rattle.co_loop.specs.Working.{CanWork, Works};
ghost use Rattle.loop_threads.specs.Parts.{IsLoopPart, ComesFrom, IsCarried, AllParts, AllComeReversed, AllCarried, HaveEnded};

use crate::parts::Part;
use aio_words::Clock;
use co_loop::CoWork;
use co_state::{Co, Origin};
use loop_rows::LoopShared;
use std::sync::Wait;
use std::thread;

/// Turns until the loop's run has ended.
pub(crate) fn carry<C: Co<E> + Drop, E, R: Wait, K: Clock + Drop>(
    rt: &R,
    env: &E,
    shared: &[LoopShared<C>],
    part: Part<C, CoWork<C, K>>,
) -> Part<C, CoWork<C, K>>
    requires lent { AreOfOrigin (C.source_of env.now) shared.now }
    requires part { IsLoopPart (CanWork C.is_of) shared.now part }
    ensures { IsCarried (CanWork C.is_of) (Works E R C.is_of C.resumes K.time) shared.now part result }
{
    let mut part = part;
    for _ in rt.forever() {
        if part.carried {
            return part;
        }
        part = part.turned(rt, env, shared, true);
    }
    unreachable!()
}

/// One turn that doesn't block, where the loop's run hasn't ended, or it is to be given again.
fn step<C: Co<E> + Drop, E, R: Wait, K: Clock + Drop>(
    rt: &R,
    env: &E,
    shared: &[LoopShared<C>],
    part: Part<C, CoWork<C, K>>,
    again: bool,
) -> Part<C, CoWork<C, K>>
    requires lent { AreOfOrigin (C.source_of env.now) shared.now }
    requires part { IsLoopPart (CanWork C.is_of) shared.now part }
    ensures { ComesFrom (CanWork C.is_of) (Works E R C.is_of C.resumes K.time) shared.now part result }
{
    if part.carried && !again {
        return part;
    }
    part.turned(rt, env, shared, false)
}

/// A step of each part, the last one first. They come onto the other list, in reverse.
fn step_each<C: Co<E> + Drop, E, R: Wait, K: Clock + Drop>(
    rt: &R,
    env: &E,
    shared: &[LoopShared<C>],
    from: &mut Vec<Part<C, CoWork<C, K>>>,
    to: &mut Vec<Part<C, CoWork<C, K>>>,
    again: bool,
)
    requires lent { AreOfOrigin (C.source_of env.now) shared.now }
    requires parts { AllParts (CanWork C.is_of) shared.now from.old.items }
    requires empty { vec_len to.old ≡ 0 }
    requires room { vec_len from.old ≤ vec_capacity to.old }
    ensures empty { vec_len from.new ≡ 0 }
    ensures len { vec_len to.new ≡ vec_len from.old }
    ensures room { (vec_capacity from.new ≡ vec_capacity from.old) × (vec_capacity to.new ≡ vec_capacity to.old) }
    ensures steps { AllComeReversed (CanWork C.is_of) (Works E R C.is_of C.resumes K.time) shared.now (vec_len from.old) from.old.items to.new.items }
{
    while let Some(part) = from.pop() {
        to.push_reserved(step(rt, env, shared, part, again));
    }
}

/// Whether the run of each has ended.
fn are_carried<C: Origin + Drop, W: Drop>(parts: &[Part<C, W>]) -> bool
    ensures { result ≡ true → HaveEnded parts.now }
{
    for part in parts {
        if !part.carried {
            return false;
        }
    }
    true
}

/// The caller carries what no thread could be started for. The other list is room for a round.
pub(crate) fn carry_left<C: Co<E> + Drop, E, R: Wait, K: Clock + Drop>(
    rt: &R,
    env: &E,
    shared: &[LoopShared<C>],
    left: &mut Vec<Part<C, CoWork<C, K>>>,
    other: &mut Vec<Part<C, CoWork<C, K>>>,
)
    requires lent { AreOfOrigin (C.source_of env.now) shared.now }
    requires parts { AllParts (CanWork C.is_of) shared.now left.old.items }
    requires empty { vec_len other.old ≡ 0 }
    requires room { vec_len left.old ≤ vec_capacity other.old }
    ensures len { vec_len left.new ≡ vec_len left.old }
    ensures room { vec_capacity left.new ≡ vec_capacity left.old }
    ensures carried { AllCarried (CanWork C.is_of) (Works E R C.is_of C.resumes K.time) shared.now (vec_len left.old) left.old.items left.new.items }
{
    for _ in rt.forever() {
        if are_carried(left) {
            return;
        }
        step_each(rt, env, shared, left, other, false);
        step_each(rt, env, shared, other, left, false);
        thread::yield_now();
    }
    unreachable!()
}

/// Once the runs of all have ended: turns that don't block, until each answers so once more in one round. Nobody else steps on the loops
/// then, so what was scheduled late is called, and nothing new comes.
pub(crate) fn quieten<C: Co<E> + Drop, E, R: Wait, K: Clock + Drop>(
    rt: &R,
    env: &E,
    shared: &[LoopShared<C>],
    parts: &mut Vec<Part<C, CoWork<C, K>>>,
    other: &mut Vec<Part<C, CoWork<C, K>>>,
)
    requires lent { AreOfOrigin (C.source_of env.now) shared.now }
    requires parts { AllParts (CanWork C.is_of) shared.now parts.old.items }
    requires empty { vec_len other.old ≡ 0 }
    requires room { vec_len parts.old ≤ vec_capacity other.old }
    ensures len { vec_len parts.new ≡ vec_len parts.old }
    ensures carried { AllCarried (CanWork C.is_of) (Works E R C.is_of C.resumes K.time) shared.now (vec_len parts.old) parts.old.items parts.new.items }
{
    for _ in rt.forever() {
        step_each(rt, env, shared, parts, other, true);
        step_each(rt, env, shared, other, parts, true);
        if are_carried(parts) {
            return;
        }
        thread::yield_now();
    }
    unreachable!()
}
