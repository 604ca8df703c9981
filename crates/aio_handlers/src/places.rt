//! Where handlers lie: in a slab, each under the key that its event keeps.
ghost use Rattle.std.specs.Prelude.{◌≡◌, ◌+◌, ◌<◌, ◌≤◌, length, IfOk};
ghost use Rattle.slab.specs.Slab.{slab_len, HasRoomFor};
ghost use Rattle.aio_handlers.specs.Slots.{slot_of};
ghost use Rattle.aio_handlers.specs.Placing.{HasSlot, Puts, TakesEvent};

use slab::Slab;
use std::alloc::{AllocError, Global};

/// The handler of an event.
#[derive(Clone, Copy, Debug)]
pub(crate) struct Slot {
    pub(crate) id: u32,
    pub(crate) tag: u64,
}

/// The handlers of up to 64 events.
#[derive(Debug, Drop)]
pub(crate) struct Places {
    slab: Slab<Slot>,
    /// The key of each event's handler, where it has one.
    keys: Vec<usize>,
}

impl Places {
    /// Memory for a handler of each event. No later call takes any.
    pub(crate) fn build(alloc: Global) -> Result<Places, AllocError>
        ensures sized { IfOk result (λ places. length places.keys.items ≡ 64) }
        ensures empty { IfOk result (λ places. slab_len places.slab ≡ 0) }
        ensures holds { IfOk result (λ places. 64 ≤ places.slab.capacity) }
    {
        let slab = Slab::with_capacity(alloc, 64)?;
        let keys = vec![in alloc; 0; 64]?;
        Ok(Places { slab, keys })
    }

    /// The handler of an event.
    pub(crate) fn at(&self, event: u32) -> Slot
        requires { HasSlot self.now event }
        ensures { result ≡ slot_of self.now event }
    {
        let key = self.keys[event as usize];
        self.slab[key]
    }

    pub(crate) fn put(&mut self, event: u32, slot: Slot)
        requires in_keys { event < length self.old.keys.items }
        requires has_room { HasRoomFor self.old.slab 1 }
        ensures puts { Puts self.old self.new event slot }
        ensures sized { length self.new.keys.items ≡ length self.old.keys.items }
        ensures filled { slab_len self.new.slab ≡ slab_len self.old.slab + 1 }
        ensures holds { self.new.slab.capacity ≡ self.old.slab.capacity }
    {
        let key = self.slab.insert_reserved(slot);
        self.keys[event as usize] = key;
    }

    pub(crate) fn take(&mut self, event: u32) -> Slot
        requires { HasSlot self.old event }
        ensures was { result ≡ slot_of self.old event }
        ensures takes { TakesEvent self.old self.new event }
        ensures sized { length self.new.keys.items ≡ length self.old.keys.items }
        ensures filled { slab_len self.new.slab + 1 ≡ slab_len self.old.slab }
        ensures holds { self.new.slab.capacity ≡ self.old.slab.capacity }
    {
        let key = self.keys[event as usize];
        self.slab.remove(key)
    }
}
