//! A pass that unlocks, by its next step.
ghost use Rattle.std.specs.Prelude.{◌≡◌, ◌<◌, [], ◌∷◌};
ghost use Rattle.co_mutex.specs.declared.slot.Slot.TheVariants.{Out};
ghost use Rattle.co_mutex.specs.Lists.{Each};
ghost use Rattle.co_mutex.specs.Places.{Unlocking, AtRest, ToPop, Nobody, OnDuty, Published, Found, side_of};
ghost use Rattle.co_mutex.specs.Passes.{IsOf, known, carried};

use crate::lock::{CoMutex, Pass};
use crate::orders::duty::{ToGrant, ToLoadNext, ToLoadWho, ToSwapHead, Unlocks, Walked};
use crate::orders::locker::Holds;
use crate::orders::number::Number;
use crate::popped::Popped;
use std::marker::PhantomData;

/// Nobody was pushed.
#[derive(Drop)]
pub(crate) struct ToPublish<'a> {
    pub(crate) lock: &'a CoMutex<Number>,
    pub(crate) pass: Pass<Number>,
    pub(crate) list: Popped,
    ghost of: { IsOf lock.now pass },
    ghost place: { (known pass).place ≡ OnDuty Unlocking Nobody },
    ghost hand: { carried pass ≡ (1, Out) ∷ [] },
    ghost empty: { (list.waiting ≡ []) × (list.room ≡ 64) },
}

#[derive(Drop)]
pub(crate) struct ToLookAgain<'a> {
    pub(crate) lock: &'a CoMutex<Number>,
    pub(crate) pass: Pass<Number>,
    pub(crate) number: u64,
    ghost of: { IsOf lock.now pass },
    ghost place: { (known pass).place ≡ Published number },
    ghost hand: { carried pass ≡ [] },
}

#[derive(Drop)]
pub(crate) struct ToTakeBack<'a> {
    pub(crate) lock: &'a CoMutex<Number>,
    pub(crate) pass: Pass<Number>,
    pub(crate) number: u64,
    ghost of: { IsOf lock.now pass },
    ghost place: { (known pass).place ≡ Found number },
    ghost hand: { carried pass ≡ [] },
}

#[derive(Drop)]
pub(crate) struct Rests<'a> {
    pub(crate) lock: &'a CoMutex<Number>,
    pub(crate) pass: Pass<Number>,
    pub(crate) named: Option<u64>,
    ghost of: { IsOf lock.now pass },
    ghost place: { (known pass).place ≡ AtRest },
    ghost hand: { carried pass ≡ [] },
}

/// What an unlock does next, and how it ends.
#[derive(Drop)]
pub(crate) enum Unlocker<'a> {
    Subtracts(Holds<'a>),
    SwapsHead(ToSwapHead<'a, Unlocks>),
    LoadsNext(ToLoadNext<'a, Unlocks>),
    LoadsWho(ToLoadWho<'a, Unlocks>),
    Grants(ToGrant<'a, Unlocks>),
    Publishes(ToPublish<'a>),
    LooksAgain(ToLookAgain<'a>),
    TakesBack(ToTakeBack<'a>),
    Rests(Rests<'a>),
}

fn pop<'a>(lock: &'a CoMutex<Number>, pass: Pass<Number>, list: Popped) -> Unlocker<'a>
    requires pass { IsOf lock.now pass }
    requires side { side_of (known pass).place ≡ Unlocking }
    requires place { (known pass).place ≡ OnDuty (side_of (known pass).place) (ToPop list.waiting) }
    requires hand { carried pass ≡ (1, Out) ∷ [] }
    requires list { (list.room ≡ 64) × Each (λ q. q < (known pass).passes) list.waiting }
{
    let mut list = list;
    match list.take_first() {
        Some(q) => Unlocker::LoadsWho(ToLoadWho {
            lock,
            pass,
            list,
            q,
            role: PhantomData,
        }),
        None => Unlocker::SwapsHead(ToSwapHead {
            lock,
            pass,
            list,
            role: PhantomData,
        }),
    }
}

impl<'a> Holds<'a> {
    /// The value is put back with 2 more.
    fn step(self) -> Unlocker<'a> {
        let Holds {
            lock,
            mut pass,
            value,
        } = self;
        if lock.give_value(&mut pass, value.wrapping_add(2)) == 1 {
            return Unlocker::Rests(Rests {
                lock,
                pass,
                named: None,
            });
        }
        let list = lock.take_list(&mut pass);
        pop(lock, pass, list)
    }
}

impl<'a> ToSwapHead<'a, Unlocks> {
    fn step(self) -> Unlocker<'a> {
        let ToSwapHead {
            lock,
            mut pass,
            list,
            role,
        } = self;
        let head = lock.swap_head(&mut pass);
        if head == 0 {
            return Unlocker::Publishes(ToPublish { lock, pass, list });
        }
        Unlocker::LoadsNext(ToLoadNext {
            lock,
            pass,
            list,
            q: (head - 1) as u32,
            role,
        })
    }
}

impl<'a> ToGrant<'a, Unlocks> {
    fn step(self) -> Unlocker<'a> {
        let ToGrant {
            lock,
            mut pass,
            list,
            q,
            who,
            role: _,
        } = self;
        lock.put_list(&mut pass, list);
        lock.store_grant(&mut pass, q);
        Unlocker::Rests(Rests {
            lock,
            pass,
            named: Some(who),
        })
    }
}

impl<'a> ToPublish<'a> {
    fn step(self) -> Unlocker<'a> {
        let ToPublish {
            lock,
            mut pass,
            mut list,
        } = self;
        let number = list.next_number();
        lock.put_list(&mut pass, list);
        lock.store_number(&mut pass, number);
        Unlocker::LooksAgain(ToLookAgain { lock, pass, number })
    }
}

impl<'a> ToLookAgain<'a> {
    fn step(self) -> Unlocker<'a> {
        let ToLookAgain {
            lock,
            mut pass,
            number,
        } = self;
        if lock.look_again(&mut pass, number) == 0 {
            return Unlocker::Rests(Rests {
                lock,
                pass,
                named: None,
            });
        }
        Unlocker::TakesBack(ToTakeBack { lock, pass, number })
    }
}

impl<'a> ToTakeBack<'a> {
    fn step(self) -> Unlocker<'a> {
        let ToTakeBack {
            lock,
            mut pass,
            number,
        } = self;
        if lock.take_back(&mut pass, number) != number {
            return Unlocker::Rests(Rests {
                lock,
                pass,
                named: None,
            });
        }
        let list = lock.take_list(&mut pass);
        Unlocker::SwapsHead(ToSwapHead {
            lock,
            pass,
            list,
            role: PhantomData,
        })
    }
}

impl<'a> Unlocker<'a> {
    /// The next step, if there is one left.
    pub(crate) fn step(self) -> Unlocker<'a> {
        match self {
            Unlocker::Subtracts(at) => at.step(),
            Unlocker::SwapsHead(at) => at.step(),
            Unlocker::LoadsNext(at) => match at.step() {
                Walked::Further(at) => Unlocker::LoadsNext(at),
                Walked::Ended(at) => Unlocker::LoadsWho(at),
            },
            Unlocker::LoadsWho(at) => Unlocker::Grants(at.step()),
            Unlocker::Grants(at) => at.step(),
            Unlocker::Publishes(at) => at.step(),
            Unlocker::LooksAgain(at) => at.step(),
            Unlocker::TakesBack(at) => at.step(),
            ended => ended,
        }
    }

    pub(crate) fn has_ended(&self) -> bool {
        matches!(self, Unlocker::Rests(_))
    }

    /// It is to take back the hand-off that it published.
    pub(crate) fn is_to_take_back(&self) -> bool {
        matches!(self, Unlocker::TakesBack(_))
    }

    /// It is to take the pushed list.
    pub(crate) fn is_to_swap_head(&self) -> bool {
        matches!(self, Unlocker::SwapsHead(_))
    }
}
