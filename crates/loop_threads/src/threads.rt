//! The start of the threads, and their joining. The caller holds their handles on its stack: no memory is taken.
ghost use Rattle.std.specs.Prelude.{◌≡◌, ◌<◌, ◌≤◌, ◌+◌, length, vec_len, vec_capacity};
ghost use Rattle.co_loop.specs.Rows.{AreOfOrigin};
ghost use Rattle.co_loop.specs.Working.{CanWork, Works};
ghost use Rattle.loop_threads.specs.Parts.{IsLoopPart, ComesFrom, IsCarried, AllParts, AllCarried};

use crate::carrying::{carry, carry_left};
use crate::parts::Part;
use aio_words::Clock;
use co_loop::CoWork;
use co_state::{Co, Origin};
use loop_rows::LoopShared;
use std::snapshot::Snapshot;
use std::sync::Wait;
use std::sync::atomic::{AtomicBool, Ordering};
use std::thread;
use std::thread::{Promise, Scope, Threads};

/// That what comes back came from this part by turns alone.
#[derive(Drop)]
struct ComesBack<'a, C: Origin, E, R, K> {
    rt: &'a R,
    env: &'a E,
    shared: &'a [LoopShared<C>],
    before: Snapshot<Part<C, CoWork<C, K>>>,
}

impl<'a, C: Co<E> + Drop, E, R: Wait, K: Clock + Drop> Promise<Part<C, CoWork<C, K>>>
    for ComesBack<'a, C, E, R, K> {
    ghost use Rattle.co_loop.specs.Working.{CanWork, Works};
    ghost use Rattle.loop_threads.specs.Parts.{ComesFrom};

    ghost kept_by = { λ p part. ComesFrom (CanWork C.is_of) (Works E R C.is_of C.resumes K.time) p.shared.now p.before.value part };
}

/// What a thread does. Where the closure was handed back, the part comes back as it is.
fn carry_unless<C: Co<E> + Drop, E, R: Wait, K: Clock + Drop>(
    rt: &R,
    env: &E,
    shared: &[LoopShared<C>],
    handed_back: &AtomicBool,
    part: Part<C, CoWork<C, K>>,
) -> Part<C, CoWork<C, K>>
    requires lent { AreOfOrigin (C.source_of env.now) shared.now }
    requires part { IsLoopPart (CanWork C.is_of) shared.now part }
    ensures { ComesFrom (CanWork C.is_of) (Works E R C.is_of C.resumes K.time) shared.now part result }
{
    if handed_back.load(Ordering::SeqCst) {
        part
    } else {
        carry(rt, env, shared, part)
    }
}

/// Starts a thread for the last of the waiting, and then for the others, and joins it once they are joined. At the bottom, where
/// none waits, the caller carries those for which no thread could be started.
fn carry_rest<
    's,
    S,
    C: Co<E> + Drop + Send + 's,
    E: Sync + 's,
    R: Threads + Wait + Sync + 's,
    K: Clock + Drop + Send + 's,
>(
    rt: &'s R,
    scope: &Scope<'s, S>,
    env: &'s E,
    shared: &'s [LoopShared<C>],
    handed_back: &'s [AtomicBool],
    mut waiting: Vec<Part<C, CoWork<C, K>>>,
    left: &mut Vec<Part<C, CoWork<C, K>>>,
    other: &mut Vec<Part<C, CoWork<C, K>>>,
    done: &mut Vec<Part<C, CoWork<C, K>>>,
)
    requires lent { AreOfOrigin (C.source_of env.now) shared.now }
    requires flags { length shared.now ≤ length handed_back.now }
    requires waiting { AllParts (CanWork C.is_of) shared.now waiting.items }
    requires left { AllParts (CanWork C.is_of) shared.now left.old.items }
    requires empty { (vec_len other.old ≡ 0) × (vec_len done.old ≡ 0) }
    requires room { (vec_len left.old + vec_len waiting ≤ vec_capacity left.old) × (vec_len left.old + vec_len waiting ≤ vec_capacity other.old) × (vec_len waiting ≤ vec_capacity done.old) }
    ensures left { (vec_len left.new ≡ vec_len left.old) × AllCarried (CanWork C.is_of) (Works E R C.is_of C.resumes K.time) shared.now (vec_len left.old) left.old.items left.new.items }
    ensures done { (vec_len done.new ≡ vec_len waiting) × AllCarried (CanWork C.is_of) (Works E R C.is_of C.resumes K.time) shared.now (vec_len waiting) waiting.items done.new.items }
    ensures room { vec_capacity done.new ≡ vec_capacity done.old }
{
    let Some(part) = waiting.pop() else {
        carry_left(rt, env, shared, left, other);
        return;
    };
    let before = Snapshot::of(&part);
    let flag = &handed_back[part.number];
    let started = scope.spawn_with(
        ComesBack {
            rt,
            env,
            shared,
            before,
        },
        move || -> Part<C, CoWork<C, K>>
            requires { AreOfOrigin (C.source_of env.now) shared.now × IsLoopPart (CanWork C.is_of) shared.now part }
            ensures { ComesFrom (CanWork C.is_of) (Works E R C.is_of C.resumes K.time) shared.entry.now part result }
        { carry_unless(rt, env, shared, flag, part) },
    );
    let part = match started {
        Ok(handle) => {
            carry_rest(
                rt,
                scope,
                env,
                shared,
                handed_back,
                waiting,
                left,
                other,
                done,
            );
            carry(rt, env, shared, handle.join(rt))
        }
        Err(refused) => {
            flag.store(true, Ordering::SeqCst);
            left.push_reserved((refused.value)());
            carry_rest(
                rt,
                scope,
                env,
                shared,
                handed_back,
                waiting,
                left,
                other,
                done,
            );
            let Some(part) = left.pop() else {
                unreachable!()
            };
            part
        }
    };
    done.push_reserved(part);
}

/// One thread for each part; the caller carries the parts for which there is none.
pub(crate) fn carry_all<
    C: Co<E> + Drop + Send,
    E: Sync,
    R: Threads + Wait + Sync,
    K: Clock + Drop + Send,
>(
    rt: &R,
    env: &E,
    shared: &[LoopShared<C>],
    handed_back: &[AtomicBool],
    waiting: Vec<Part<C, CoWork<C, K>>>,
    left: Vec<Part<C, CoWork<C, K>>>,
    other: Vec<Part<C, CoWork<C, K>>>,
    done: Vec<Part<C, CoWork<C, K>>>,
) -> Vec<Part<C, CoWork<C, K>>>
    requires lent { AreOfOrigin (C.source_of env.now) shared.now }
    requires flags { length shared.now ≤ length handed_back.now }
    requires waiting { AllParts (CanWork C.is_of) shared.now waiting.items }
    requires empty { (vec_len left ≡ 0) × (vec_len other ≡ 0) × (vec_len done ≡ 0) }
    requires room { (vec_len waiting ≤ vec_capacity left) × (vec_len waiting ≤ vec_capacity other) × (vec_len waiting ≤ vec_capacity done) }
    ensures { (vec_len result ≡ vec_len waiting) × AllCarried (CanWork C.is_of) (Works E R C.is_of C.resumes K.time) shared.now (vec_len waiting) waiting.items result.items }
{
    thread::scope(
        thread::scope_env(),
        rt,
        |scope| -> Vec<Part<C, CoWork<C, K>>>
            requires { AreOfOrigin (C.source_of env.now) shared.now × (length shared.now ≤ length handed_back.now) × AllParts (CanWork C.is_of) shared.now waiting.items × (vec_len left ≡ 0) × (vec_len other ≡ 0) × (vec_len done ≡ 0) × (vec_len waiting ≤ vec_capacity left) × (vec_len waiting ≤ vec_capacity other) × (vec_len waiting ≤ vec_capacity done) }
            ensures { (vec_len result ≡ vec_len waiting) × AllCarried (CanWork C.is_of) (Works E R C.is_of C.resumes K.time) shared.entry.now (vec_len waiting) waiting.items result.items }
        {
            let mut left = left;
            let mut other = other;
            let mut done = done;
            carry_rest(
                rt,
                scope,
                env,
                shared,
                handed_back,
                waiting,
                &mut left,
                &mut other,
                &mut done,
            );
            done
        },
    )
}
