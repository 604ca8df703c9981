//! What each step tells. No value of these types is made.
use crate::rule::LockRule;
use crate::slot::Slot;
use crate::view::View;
use atomic_table::Play;
use std::marker::PhantomData;

pub struct CompareLocked<P> {
    rule: PhantomData<P>,
}

impl<P: LockRule> Play<Slot<P::Value>, View<P::Value>> for CompareLocked<P> {
    ghost use Rattle.co_mutex.specs.Plays.{compared_locked};

    ghost then = { compared_locked P.note };
}

pub struct AddLocked<P> {
    rule: PhantomData<P>,
}

impl<P: LockRule> Play<Slot<P::Value>, View<P::Value>> for AddLocked<P> {
    ghost use Rattle.co_mutex.specs.Plays.{added_locked};

    ghost then = { added_locked P.note };
}

pub struct SwapGrant<P> {
    rule: PhantomData<P>,
}

impl<P: LockRule> Play<Slot<P::Value>, View<P::Value>> for SwapGrant<P> {
    ghost use Rattle.co_mutex.specs.Plays.{swapped_grant};

    ghost then = { swapped_grant P.note };
}

pub struct SubLocked;

impl<T> Play<Slot<T>, View<T>> for SubLocked {
    ghost use Rattle.co_mutex.specs.Plays.{subbed};

    ghost then = { subbed };
}

pub struct StoreWho;

impl<T> Play<Slot<T>, View<T>> for StoreWho {
    ghost use Rattle.co_mutex.specs.Plays.{stored_who};

    ghost then = { stored_who };
}

pub struct LoadHead;

impl<T> Play<Slot<T>, View<T>> for LoadHead {
    ghost use Rattle.co_mutex.specs.Plays.{loaded_head};

    ghost then = { loaded_head };
}

pub struct StoreNext;

impl<T> Play<Slot<T>, View<T>> for StoreNext {
    ghost use Rattle.co_mutex.specs.Plays.{stored_next};

    ghost then = { stored_next };
}

pub struct CompareHead;

impl<T> Play<Slot<T>, View<T>> for CompareHead {
    ghost use Rattle.co_mutex.specs.Plays.{compared_head};

    ghost then = { compared_head };
}

pub struct LoadHandoff;

impl<T> Play<Slot<T>, View<T>> for LoadHandoff {
    ghost use Rattle.co_mutex.specs.Plays.{loaded_handoff};

    ghost then = { loaded_handoff };
}

pub struct CompareHandoff;

impl<T> Play<Slot<T>, View<T>> for CompareHandoff {
    ghost use Rattle.co_mutex.specs.Plays.{compared_handoff};

    ghost then = { compared_handoff };
}

pub struct SwapHead;

impl<T> Play<Slot<T>, View<T>> for SwapHead {
    ghost use Rattle.co_mutex.specs.Plays.{swapped_head};

    ghost then = { swapped_head };
}

pub struct LoadNext;

impl<T> Play<Slot<T>, View<T>> for LoadNext {
    ghost use Rattle.co_mutex.specs.Plays.{loaded_next};

    ghost then = { loaded_next };
}

pub struct LoadWho;

impl<T> Play<Slot<T>, View<T>> for LoadWho {
    ghost use Rattle.co_mutex.specs.Plays.{loaded_who};

    ghost then = { loaded_who };
}

pub struct StoreGrant;

impl<T> Play<Slot<T>, View<T>> for StoreGrant {
    ghost use Rattle.co_mutex.specs.Plays.{stored_grant};

    ghost then = { stored_grant };
}

pub struct StoreHandoff;

impl<T> Play<Slot<T>, View<T>> for StoreHandoff {
    ghost use Rattle.co_mutex.specs.Plays.{stored_number};

    ghost then = { stored_number };
}

pub struct LookAgain;

impl<T> Play<Slot<T>, View<T>> for LookAgain {
    ghost use Rattle.co_mutex.specs.Plays.{looked};

    ghost then = { looked };
}
