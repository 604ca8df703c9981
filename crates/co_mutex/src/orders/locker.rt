//! A pass that locks, by its next step.
ghost use Rattle.std.specs.Prelude.{◌≡◌, ◌≢◌, [], ◌∷◌};
ghost use Rattle.co_mutex.specs.declared.slot.Slot.TheVariants.{Out};
ghost use Rattle.co_mutex.specs.Places.{AtRest, Counted, Named, HeadLoaded, Linked, Pushed, Loaded, Queued, SelfGranted, Holds as HoldsIt};
ghost use Rattle.co_mutex.specs.Passes.{IsOf, known, carried};

use crate::lock::{CoMutex, Pass};
use crate::orders::duty::{Locks, ToGrant, ToLoadNext, ToLoadWho, ToSwapHead, Walked};
use crate::orders::number::Number;
use std::marker::PhantomData;

#[derive(Drop)]
pub(crate) struct ToCompare<'a> {
    pub(crate) lock: &'a CoMutex<Number>,
    pub(crate) pass: Pass<Number>,
    ghost of: { IsOf lock.now pass },
    ghost place: { (known pass).place ≡ AtRest },
    ghost hand: { carried pass ≡ [] },
}

/// The compare found the lock taken.
#[derive(Drop)]
pub(crate) struct ToAdd<'a> {
    pub(crate) lock: &'a CoMutex<Number>,
    pub(crate) pass: Pass<Number>,
    ghost of: { IsOf lock.now pass },
    ghost place: { (known pass).place ≡ AtRest },
    ghost hand: { carried pass ≡ [] },
}

#[derive(Drop)]
pub(crate) struct ToStoreWho<'a> {
    pub(crate) lock: &'a CoMutex<Number>,
    pub(crate) pass: Pass<Number>,
    ghost of: { IsOf lock.now pass },
    ghost place: { (known pass).place ≡ Counted },
    ghost hand: { carried pass ≡ [] },
}

#[derive(Drop)]
pub(crate) struct ToLoadHead<'a> {
    pub(crate) lock: &'a CoMutex<Number>,
    pub(crate) pass: Pass<Number>,
    pub(crate) who: u64,
    ghost of: { IsOf lock.now pass },
    ghost place: { (known pass).place ≡ Named who },
    ghost hand: { carried pass ≡ [] },
}

#[derive(Drop)]
pub(crate) struct ToStoreNext<'a> {
    pub(crate) lock: &'a CoMutex<Number>,
    pub(crate) pass: Pass<Number>,
    pub(crate) who: u64,
    pub(crate) head: u64,
    ghost of: { IsOf lock.now pass },
    ghost place: { (known pass).place ≡ HeadLoaded who head },
    ghost hand: { carried pass ≡ [] },
}

#[derive(Drop)]
pub(crate) struct ToCompareHead<'a> {
    pub(crate) lock: &'a CoMutex<Number>,
    pub(crate) pass: Pass<Number>,
    pub(crate) who: u64,
    pub(crate) head: u64,
    ghost of: { IsOf lock.now pass },
    ghost place: { (known pass).place ≡ Linked who head },
    ghost hand: { carried pass ≡ [] },
}

#[derive(Drop)]
pub(crate) struct ToLoadHandoff<'a> {
    pub(crate) lock: &'a CoMutex<Number>,
    pub(crate) pass: Pass<Number>,
    ghost of: { IsOf lock.now pass },
    ghost place: { (known pass).place ≡ Pushed },
    ghost hand: { carried pass ≡ [] },
}

#[derive(Drop)]
pub(crate) struct ToCompareHandoff<'a> {
    pub(crate) lock: &'a CoMutex<Number>,
    pub(crate) pass: Pass<Number>,
    pub(crate) number: u64,
    ghost of: { IsOf lock.now pass },
    ghost place: { (known pass).place ≡ Loaded number },
    ghost hand: { carried pass ≡ [] },
}

#[derive(Drop)]
pub(crate) struct Waits<'a> {
    pub(crate) lock: &'a CoMutex<Number>,
    pub(crate) pass: Pass<Number>,
    ghost of: { IsOf lock.now pass },
    ghost place: { (known pass).place ≡ Queued },
    ghost hand: { carried pass ≡ [] },
}

/// It granted itself.
#[derive(Drop)]
pub(crate) struct ToSwapGrant<'a> {
    pub(crate) lock: &'a CoMutex<Number>,
    pub(crate) pass: Pass<Number>,
    ghost of: { IsOf lock.now pass },
    ghost place: { (known pass).place ≡ SelfGranted },
    ghost hand: { carried pass ≡ [] },
}

/// The value is out.
#[derive(Drop)]
pub(crate) struct Holds<'a> {
    pub(crate) lock: &'a CoMutex<Number>,
    pub(crate) pass: Pass<Number>,
    pub(crate) value: u64,
    ghost of: { IsOf lock.now pass },
    ghost place: { (known pass).place ≡ HoldsIt },
    ghost hand: { carried pass ≡ (0, Out) ∷ [] },
}

/// What a lock does next, and how it ends.
#[derive(Drop)]
pub(crate) enum Locker<'a> {
    Compares(ToCompare<'a>),
    Adds(ToAdd<'a>),
    StoresWho(ToStoreWho<'a>),
    LoadsHead(ToLoadHead<'a>),
    StoresNext(ToStoreNext<'a>),
    ComparesHead(ToCompareHead<'a>),
    LoadsHandoff(ToLoadHandoff<'a>),
    ComparesHandoff(ToCompareHandoff<'a>),
    SwapsHead(ToSwapHead<'a, Locks>),
    LoadsNext(ToLoadNext<'a, Locks>),
    LoadsWho(ToLoadWho<'a, Locks>),
    Grants(ToGrant<'a, Locks>),
    SwapsGrant(ToSwapGrant<'a>),
    /// It found the lock free.
    Got(Holds<'a>),
    /// It took the hand-off, and granted itself.
    Handed(Holds<'a>),
    Waits(Waits<'a>),
}

impl<'a> ToCompare<'a> {
    fn step(self) -> Locker<'a> {
        let ToCompare { lock, mut pass } = self;
        if lock.compare_locked(&mut pass) == 0 {
            let value = lock.take_value(&mut pass);
            return Locker::Got(Holds { lock, pass, value });
        }
        Locker::Adds(ToAdd { lock, pass })
    }
}

impl<'a> ToAdd<'a> {
    fn step(self) -> Locker<'a> {
        let ToAdd { lock, mut pass } = self;
        if lock.add_locked(&mut pass) == 0 {
            let value = lock.take_value(&mut pass);
            return Locker::Got(Holds { lock, pass, value });
        }
        Locker::StoresWho(ToStoreWho { lock, pass })
    }
}

impl<'a> ToStoreWho<'a> {
    fn step(self, who: u64) -> Locker<'a> {
        let ToStoreWho { lock, mut pass } = self;
        lock.store_who(&mut pass, who);
        Locker::LoadsHead(ToLoadHead { lock, pass, who })
    }
}

impl<'a> ToLoadHead<'a> {
    fn step(self) -> Locker<'a> {
        let ToLoadHead {
            lock,
            mut pass,
            who,
        } = self;
        let head = lock.load_head(&mut pass);
        Locker::StoresNext(ToStoreNext {
            lock,
            pass,
            who,
            head,
        })
    }
}

impl<'a> ToStoreNext<'a> {
    fn step(self) -> Locker<'a> {
        let ToStoreNext {
            lock,
            mut pass,
            who,
            head,
        } = self;
        lock.store_next(&mut pass, head);
        Locker::ComparesHead(ToCompareHead {
            lock,
            pass,
            who,
            head,
        })
    }
}

impl<'a> ToCompareHead<'a> {
    fn step(self) -> Locker<'a> {
        let ToCompareHead {
            lock,
            mut pass,
            who,
            head,
        } = self;
        if lock.compare_head(&mut pass, head) == head {
            return Locker::LoadsHandoff(ToLoadHandoff { lock, pass });
        }
        Locker::LoadsHead(ToLoadHead { lock, pass, who })
    }
}

impl<'a> ToLoadHandoff<'a> {
    fn step(self) -> Locker<'a> {
        let ToLoadHandoff { lock, mut pass } = self;
        let number = lock.load_handoff(&mut pass);
        if number == 0 {
            return Locker::Waits(Waits { lock, pass });
        }
        Locker::ComparesHandoff(ToCompareHandoff { lock, pass, number })
    }
}

impl<'a> ToCompareHandoff<'a> {
    fn step(self) -> Locker<'a> {
        let ToCompareHandoff {
            lock,
            mut pass,
            number,
        } = self;
        if lock.take_handoff(&mut pass, number) != number {
            return Locker::Waits(Waits { lock, pass });
        }
        let list = lock.take_list(&mut pass);
        Locker::SwapsHead(ToSwapHead {
            lock,
            pass,
            list,
            role: PhantomData,
        })
    }
}

impl<'a> ToSwapHead<'a, Locks> {
    fn step(self) -> Locker<'a> {
        let ToSwapHead {
            lock,
            mut pass,
            list,
            role,
        } = self;
        let head = lock.swap_head(&mut pass);
        Locker::LoadsNext(ToLoadNext {
            lock,
            pass,
            list,
            q: (head - 1) as u32,
            role,
        })
    }
}

impl<'a> ToGrant<'a, Locks> {
    fn step(self) -> Locker<'a> {
        let ToGrant {
            lock,
            mut pass,
            list,
            q,
            who: _,
            role: _,
        } = self;
        lock.put_list(&mut pass, list);
        lock.store_grant(&mut pass, q);
        if q == pass.number {
            return Locker::SwapsGrant(ToSwapGrant { lock, pass });
        }
        Locker::Waits(Waits { lock, pass })
    }
}

impl<'a> ToSwapGrant<'a> {
    fn step(self) -> Locker<'a> {
        let ToSwapGrant { lock, mut pass } = self;
        lock.swap_own_grant(&mut pass);
        let value = lock.take_value(&mut pass);
        Locker::Handed(Holds { lock, pass, value })
    }
}

impl<'a> Locker<'a> {
    /// The next step, if there is one left. A lock is for this coroutine.
    pub(crate) fn step(self, who: u64) -> Locker<'a> {
        match self {
            Locker::Compares(at) => at.step(),
            Locker::Adds(at) => at.step(),
            Locker::StoresWho(at) => at.step(who),
            Locker::LoadsHead(at) => at.step(),
            Locker::StoresNext(at) => at.step(),
            Locker::ComparesHead(at) => at.step(),
            Locker::LoadsHandoff(at) => at.step(),
            Locker::ComparesHandoff(at) => at.step(),
            Locker::SwapsHead(at) => at.step(),
            Locker::LoadsNext(at) => match at.step() {
                Walked::Further(at) => Locker::LoadsNext(at),
                Walked::Ended(at) => Locker::LoadsWho(at),
            },
            Locker::LoadsWho(at) => Locker::Grants(at.step()),
            Locker::Grants(at) => at.step(),
            Locker::SwapsGrant(at) => at.step(),
            ended => ended,
        }
    }

    pub(crate) fn has_ended(&self) -> bool {
        matches!(self, Locker::Got(_) | Locker::Handed(_) | Locker::Waits(_))
    }
}
