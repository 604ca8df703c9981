//! A pass that has the duty to wake, by its next step. The popped list is with it.
ghost use Rattle.std.specs.Prelude.{◌≡◌, ◌<◌, ◌+◌, [], ◌∷◌};
ghost use Rattle.co_mutex.specs.declared.slot.Slot.TheVariants.{Out};
ghost use Rattle.co_mutex.specs.Places.{ToPop, Walking, Granting, OnDuty, side_of, left_of};
ghost use Rattle.co_mutex.specs.Passes.{IsOf, known, carried};

use crate::lock::{CoMutex, Pass};
use crate::orders::number::Number;
use crate::popped::Popped;
use std::marker::PhantomData;

/// Whether a pass with the duty locks or unlocks.
pub(crate) trait Role {
    ghost use Rattle.co_mutex.specs.Places.{Side};

    ghost side: { Side };
}

pub(crate) struct Locks;

impl Role for Locks {
    ghost use Rattle.co_mutex.specs.Places.{Locking};

    ghost side = { Locking };
}

pub(crate) struct Unlocks;

impl Role for Unlocks {
    ghost use Rattle.co_mutex.specs.Places.{Unlocking};

    ghost side = { Unlocking };
}

/// The popped list is empty, and the pushed one is to be taken.
#[derive(Drop)]
pub(crate) struct ToSwapHead<'a, S: Role> {
    pub(crate) lock: &'a CoMutex<Number>,
    pub(crate) pass: Pass<Number>,
    pub(crate) list: Popped,
    pub(crate) role: PhantomData<S>,
    ghost of: { IsOf lock.now pass },
    ghost side: { side_of (known pass).place ≡ S.side },
    ghost place: { (known pass).place ≡ OnDuty (side_of (known pass).place) (ToPop []) },
    ghost hand: { carried pass ≡ (1, Out) ∷ [] },
    ghost empty: { (list.waiting ≡ []) × (list.room ≡ 64) },
}

/// The pushed list was taken, and is walked at this pass.
#[derive(Drop)]
pub(crate) struct ToLoadNext<'a, S: Role> {
    pub(crate) lock: &'a CoMutex<Number>,
    pub(crate) pass: Pass<Number>,
    pub(crate) list: Popped,
    pub(crate) q: u32,
    pub(crate) role: PhantomData<S>,
    ghost of: { IsOf lock.now pass },
    ghost below: { q < (known pass).passes },
    ghost side: { side_of (known pass).place ≡ S.side },
    ghost place: { (known pass).place ≡ OnDuty (side_of (known pass).place) (Walking (q + 1) (left_of (known pass).place) list.waiting) },
    ghost hand: { carried pass ≡ (1, Out) ∷ [] },
    ghost room: { list.room ≡ 64 },
}

/// This pass was popped, and is to be granted.
#[derive(Drop)]
pub(crate) struct ToLoadWho<'a, S: Role> {
    pub(crate) lock: &'a CoMutex<Number>,
    pub(crate) pass: Pass<Number>,
    pub(crate) list: Popped,
    pub(crate) q: u32,
    pub(crate) role: PhantomData<S>,
    ghost of: { IsOf lock.now pass },
    ghost below: { q < (known pass).passes },
    ghost side: { side_of (known pass).place ≡ S.side },
    ghost place: { (known pass).place ≡ OnDuty (side_of (known pass).place) (ToPop (q ∷ list.waiting)) },
    ghost hand: { carried pass ≡ (1, Out) ∷ [] },
    ghost room: { list.room ≡ 64 },
}

/// Its coroutine was loaded too.
#[derive(Drop)]
pub(crate) struct ToGrant<'a, S: Role> {
    pub(crate) lock: &'a CoMutex<Number>,
    pub(crate) pass: Pass<Number>,
    pub(crate) list: Popped,
    pub(crate) q: u32,
    pub(crate) who: u64,
    pub(crate) role: PhantomData<S>,
    ghost of: { IsOf lock.now pass },
    ghost below: { q < (known pass).passes },
    ghost side: { side_of (known pass).place ≡ S.side },
    ghost place: { (known pass).place ≡ OnDuty (side_of (known pass).place) (Granting q who list.waiting) },
    ghost hand: { carried pass ≡ (1, Out) ∷ [] },
    ghost room: { list.room ≡ 64 },
}

/// A walk goes on, or has come to the oldest.
#[derive(Drop)]
pub(crate) enum Walked<'a, S: Role> {
    Further(ToLoadNext<'a, S>),
    Ended(ToLoadWho<'a, S>),
}

impl<'a, S: Role> ToLoadNext<'a, S> {
    pub(crate) fn step(self) -> Walked<'a, S> {
        let ToLoadNext {
            lock,
            mut pass,
            mut list,
            q,
            role,
        } = self;
        let next = lock.load_next(&mut pass, q);
        if next == 0 {
            return Walked::Ended(ToLoadWho {
                lock,
                pass,
                list,
                q,
                role,
            });
        }
        list.put_first(q);
        Walked::Further(ToLoadNext {
            lock,
            pass,
            list,
            q: (next - 1) as u32,
            role,
        })
    }
}

impl<'a, S: Role> ToLoadWho<'a, S> {
    pub(crate) fn step(self) -> ToGrant<'a, S> {
        let ToLoadWho {
            lock,
            mut pass,
            list,
            q,
            role,
        } = self;
        let who = lock.load_who(&mut pass, q);
        ToGrant {
            lock,
            pass,
            list,
            q,
            who,
            role,
        }
    }
}
