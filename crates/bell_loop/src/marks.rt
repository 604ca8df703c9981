//! Which events home knows to be set.
ghost use Rattle.std.specs.Prelude.{◌≡◌, ◌≤◌, ◌<◌, false, length, replicate, set, slice_index_or, IfOk};
ghost use Rattle.aio_model.specs.Loop.Log.{first_from};

use aio_model::NoMemory;
use std::alloc::Global;
use std::marker::Model;

/// Which events are set, as far as home has set and cleared them. It takes memory when it is built, and never again.
#[derive(Drop)]
pub struct Marks {
    events: Vec<bool>,
}

impl Model for Marks {
    ghost use Rattle.std.specs.Prelude.{List, Bool, length, ◌≤◌};

    ghost Value = { List Bool };

    ghost view = { λ m. m.events.items };

    ghost invariant = { λ m. length m.events.items ≤ 64 };
}

fn first_of(events: &[bool]) -> Option<u32>
    requires { length events.now ≤ 64 }
    ensures { result ≡ first_from (λ e. slice_index_or events.now e false) 0 (length events.now) }
{
    for e in 0..events.len() {
        if events[e] {
            return Some(e as u32);
        }
    }
    None
}

impl Marks {
    pub fn build(alloc: Global, count: u32) -> Result<Marks, NoMemory>
        requires { count ≤ 64 }
        ensures { IfOk result (λ built. built ≡ replicate count false) }
    {
        let events = vec![in alloc; false; count as usize].map_err(|_| NoMemory)?;
        Ok(Marks { events })
    }

    pub fn mark(&mut self, event: u32, is_set: bool)
        requires { event < length self.old }
        ensures { self.new ≡ set self.old event is_set }
    {
        self.events[event as usize] = is_set;
    }

    pub fn is_marked(&self, event: u32) -> bool
        requires { event < length self.now }
        ensures { result ≡ slice_index_or self.now event false }
    {
        self.events[event as usize]
    }

    /// The least event that is set.
    pub fn first(&self) -> Option<u32>
        ensures { result ≡ first_from (λ e. slice_index_or self.now e false) 0 (length self.now) }
    {
        first_of(&self.events)
    }
}
