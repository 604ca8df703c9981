//! After CoQueue of QEMU's util/qemu-coroutine-lock.c, but who is taken is answered and not entered.
ghost use Rattle.std.specs.Prelude.{◌≡◌, ◌<◌, ◌≤◌, ◌++◌, ◌∷◌, [], length, take, drop, IfOk, IsFalse};
ghost use Rattle.aio_chain.specs.LinkList.{contains, first_of};

use aio_chain::Links;
use aio_model::NoMemory;
use std::alloc::Global;
use std::marker::Model;

/// Those that wait, in order of arrival. Contracts see their list.
#[derive(Debug, Drop)]
pub struct CoQueue {
    waiters: Links,
}

impl Model for CoQueue {
    ghost use Rattle.aio_chain.specs.LinkList.{LinkList};

    ghost Value = { LinkList };

    ghost view = { λ queue. queue.waiters };
}

impl CoQueue {
    /// An empty queue for numbers below `room`. No later call takes memory.
    pub fn build(alloc: Global, room: u32) -> Result<CoQueue, NoMemory>
        ensures empty { IfOk result (λ queue. queue.items ≡ []) }
        ensures room { IfOk result (λ queue. queue.room ≡ room) }
    {
        let waiters = Links::build(alloc, room)?;
        Ok(CoQueue { waiters })
    }

    /// Whether it waits.
    pub fn has(&self, who: u32) -> bool
        ensures { result ≡ contains who self.now.items }
    {
        self.waiters.has(who)
    }

    pub fn wait(&mut self, who: u32)
        requires below { who < self.old.room }
        requires absent { IsFalse (contains who self.old.items) }
        ensures items { self.new.items ≡ self.old.items ++ who ∷ [] }
        ensures room { self.new.room ≡ self.old.room }
    {
        self.waiters.push_back(who);
    }

    /// Takes the one that has waited longest.
    pub fn next(&mut self) -> Option<u32>
        ensures first { result ≡ first_of self.old.items }
        ensures items { self.new.items ≡ drop 1 self.old.items }
        ensures room { self.new.room ≡ self.old.room }
    {
        let who = self.waiters.first()?;
        self.waiters.unlink(who);
        Some(who)
    }

    /// Takes all, in order, and tells how many there were.
    pub fn all(&mut self, out: &mut [u32; 64]) -> u32
        requires { self.old.room ≤ 64 }
        ensures count { result ≡ length self.old.items }
        ensures taken { take result out.new ≡ self.old.items }
        ensures rest { drop result out.new ≡ drop result out.old }
        ensures empty { self.new.items ≡ [] }
        ensures room { self.new.room ≡ self.old.room }
    {
        let mut taken = 0;
        let mut first = self.waiters.first();
        while let Some(waiter) = first {
            out[taken as usize] = waiter;
            taken += 1;
            self.waiters.unlink(waiter);
            first = self.waiters.first();
        }
        taken
    }
}
