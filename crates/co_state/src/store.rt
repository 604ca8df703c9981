//! The coroutines that wait in one home.
ghost use Rattle.std.specs.Prelude.{◌≡◌, ◌<◌, ◌||◌, length, nat_le, is_err, Some, None, IfOk, IfErr, OnOk, OnErr, MatchOption, MatchResult, nat_eq, slice_index, if◌then◌else◌};
ghost use Rattle.std.specs.FinMap as map;
ghost use Rattle.slab.specs.Slab.{Slab, get, slab_len, Updates, ContainsKey};

use crate::co::{Co, CoStep, Origin};
use crate::cx::Cx;
use crate::directory::Directory;
use aio_model::NoMemory;
use chosen::Chosen;
use slab::Slab;
use std::alloc::{AllocError, Global};
use std::marker::Model;

/// What an enter answers.
#[derive(Debug, PartialEq, Eq, Drop)]
pub enum Entered<C> {
    Done(C),
    Yielded,
    /// So many nanoseconds from now it is to be entered again.
    Slept(u64),
    /// The loop of this number is to have it.
    Moving(C, u32),
    Absent,
}

/// A coroutine that waits, with its number.
#[derive(Debug, Drop)]
pub(crate) struct Slot<C> {
    pub(crate) id: u32,
    pub(crate) co: C,
}

/// The coroutines that wait in one home, by number. All are of one origin, which never changes.
#[derive(Drop)]
pub struct CoStore<C: Origin> {
    room: u32,
    directory: Directory,
    slots: Slab<Slot<C>>,
    origin: Chosen<C::Source>,
}

impl<C: Origin> Model for CoStore<C> {
    ghost use Rattle.co_state.specs.Coroutines.{Coroutines, coroutines_code, AllOf};

    ghost Value = { Coroutines C C.Source };

    ghost coded = { coroutines_code C.code C.Source.code };

    ghost use Rattle.co_state.specs.Kept.{held_in, AreKept};

    ghost view = { λ s. record { room = s.room; held = held_in s.directory s.slots; origin = s.origin.value } };

    ghost invariant = { λ s. AreKept s.room s.directory s.slots × AllOf C.is_of (held_in s.directory s.slots) s.origin.value };
}

impl<C: Origin> CoStore<C> {
    ghost use Rattle.co_state.specs.Entering.{ResumesOne};
    ghost use Rattle.co_state.specs.Wants.{nothing_asked};
    ghost use Rattle.co_state.specs.declared.store.Entered.TheVariants.{Absent};

    /// An empty store for so many coroutines of an origin that the caller chooses. No later call takes memory.
    pub fn build(alloc: Global, room: u32) -> Result<CoStore<C>, NoMemory>
        ghost origin: { C.Source }
        ensures { IfOk result (λ store. store ≡ record { room = room; held = map.empty; origin = origin }) }
    {
        let Ok(directory) = Directory::build(alloc, room) else {
            return Err(NoMemory);
        };
        let Ok(slots) = Slab::with_capacity(alloc, room as usize) else {
            return Err(NoMemory);
        };
        Ok(CoStore {
            room,
            directory,
            slots,
            origin: Chosen::pick(),
        })
    }

    /// Puts a coroutine in; `Err` hands it back.
    pub fn put(&mut self, id: u32, co: C) -> Result<(), C>
        requires { C.is_of id co self.old.origin }
        ensures refused { is_err result ≡ (map.contains_key self.old.held id || nat_le self.old.room (map.len self.old.held)) }
        ensures put { OnOk result (self.new ≡ record self.old { held = map.insert self.old.held id co }) }
        ensures back { IfErr result (λ back. back ≡ co) }
        ensures same { OnErr result (self.new ≡ self.old) }
    {
        if self.directory.key(id).is_some() {
            return Err(co);
        }
        if self.directory.len() >= self.room as usize {
            return Err(co);
        }
        let key = self.slots.insert_reserved(Slot { id, co });
        self.directory.insert(id, key);
        Ok(())
    }

    /// Resumes a coroutine once. It stays in the store unless it is done or moves.
    pub fn enter<E>(&mut self, id: u32, env: &E, cx: &mut Cx) -> Entered<C>
    where
        C: Co<E>,
        requires origin { C.source_of env.now ≡ self.old.origin }
        requires fresh { cx.old ≡ nothing_asked }
        ensures { MatchOption (map.get self.old.held id)
            ((result ≡ Absent) × (self.new ≡ self.old) × (cx.new ≡ cx.old))
            (λ co. ResumesOne C.is_of C.resumes self.old self.new id co cx.new result) }
    {
        let Some(key) = self.directory.key(id) else {
            return Entered::Absent;
        };
        let Some(slot) = self.slots.get_mut(key) else {
            unreachable!()
        };
        match slot.co.resume(env, cx) {
            CoStep::Done => {
                self.directory.remove(id);
                Entered::Done(self.slots.remove(key).co)
            }
            CoStep::Yield => Entered::Yielded,
            CoStep::Sleep(ns) => Entered::Slept(ns),
            CoStep::Move(home) => {
                self.directory.remove(id);
                Entered::Moving(self.slots.remove(key).co, home)
            }
        }
    }
}
