//! A set of timers: arms, disarms, and runs of those that are due.
ghost use Rattle.std.specs.Prelude.{◌≡◌, ◌<◌, ◌+◌, ◌∷◌, [], length, nat_lt, slice_set, List, IfOk, IfSome, IfNone, MatchOption};
ghost use Rattle.aio_model.specs.declared.timers.calls.TimerCall.{TimerCall};
ghost use Rattle.aio_model.specs.declared.timers.calls.TimerCall.TheVariants.{Add, Arm, Disarm, RunBegin, Give};
ghost use Rattle.aio_model.specs.Timers.Calls.{is_armed, is_marked, IsFirstOfKind, IsNone, IsEarliest};
ghost use Rattle.aio_timers.specs.Keys.{none, joint, AreRows};
ghost use Rattle.aio_timers.specs.StandsFor.{StandsFor};

use crate::key_tree::{KeyTree, NONE};
use crate::keys::{expiry_of, from_zero, key_of};
use crate::moves::move_keys;
use crate::stamps::fresh_stamp;
use aio_model::NoMemory;
use std::alloc::{AllocError, Global};
use std::marker::Model;

/// A timer of one set of timers. The first that the set made has the number 0.
#[derive(Clone, Copy, Debug, PartialEq, Eq)]
pub struct TimerId {
    pub number: u32,
}

/// Empty rows of keys, and room for as many ranks.
fn rows(alloc: Global, room: u32) -> Result<(KeyTree, KeyTree, Vec<u64>), AllocError>
    ensures { IfOk result (λ rows. AreRows rows.0 rows.1 rows.2.items room) }
{
    let places = room as usize + 1;
    let due = KeyTree::build(alloc, places)?;
    let waiting = KeyTree::build(alloc, places)?;
    let ranks = vec![in alloc; 0; places]?;
    Ok((due, waiting, ranks))
}

/// Takes a timer's key out of the row that it is in. Whether it was in one.
fn take_off(due: &mut KeyTree, waiting: &mut KeyTree, timer: u32) -> bool
    requires in_due { timer < length due.old }
    requires in_waiting { timer < length waiting.old }
    ensures was { result ≡ nat_lt (joint due.old waiting.old timer) none }
    ensures due { due.new ≡ slice_set due.old timer none }
    ensures waiting { waiting.new ≡ slice_set waiting.old timer none }
{
    let place = timer as usize;
    let was_armed = due.key(place) < NONE || waiting.key(place) < NONE;
    due.clear(place);
    waiting.clear(place);
    was_armed
}

/// Timers that their owner arms and disarms, and gives in runs, after timerlists of QEMU's util/qemu-timer.c. All is
/// done by one thread.
#[derive(Debug, Drop)]
pub struct Timers {
    /// The keys of the timers that the run is to give.
    due: KeyTree,
    /// The keys of the other armed ones.
    waiting: KeyTree,
    /// Where stamps are counted that are to be given anew.
    ranks: Vec<u64>,
    room: u32,
    made: u32,
    /// The stamp of the next arm.
    next: u64,
}

impl Model for Timers {
    ghost use Rattle.aio_timers.specs.StandsFor.{TimerList};

    ghost Value = { TimerList };

    ghost use Rattle.aio_timers.specs.Kept.{timers_of, AreKept};

    ghost view = { timers_of };

    ghost invariant = { AreKept };
}

impl Timers {
    /// Memory for so many timers. No later call takes any.
    pub fn build(alloc: Global, room: u32) -> Result<Timers, NoMemory>
        ensures stands { IfOk result (λ timers. StandsFor timers []) }
        ensures room { IfOk result (λ timers. timers.room ≡ room) }
    {
        match rows(alloc, room) {
            Ok((due, waiting, ranks)) => Ok(Timers {
                due,
                waiting,
                ranks,
                room,
                made: 0,
                next: 0,
            }),
            Err(AllocError) => Err(NoMemory),
        }
    }

    /// A new timer, which isn't armed; `None` where there is no room for one.
    pub fn add(&mut self) -> Option<TimerId>
        ensures full { IfNone result (self.old.made ≡ self.old.room) }
        ensures unchanged { IfNone result (self.new ≡ self.old) }
        ensures numbered { IfSome result (λ id. id.number ≡ self.old.made) }
        ensures had_room { IfSome result (λ _. self.old.made < self.old.room) }
        ensures made { IfSome result (λ _. self.new.made ≡ self.old.made + 1) }
        ensures room { self.new.room ≡ self.old.room }
        ensures stands { IfSome result (λ _. (calls : List TimerCall) → StandsFor self.old calls → StandsFor self.new (Add ∷ calls)) }
    {
        let number = self.made;
        if number == self.room {
            return None;
        }
        self.made += 1;
        Some(TimerId { number })
    }

    /// Arms a timer of this set, anew if it is armed.
    pub fn arm(&mut self, id: TimerId, expire: i64)
        requires { id.number < self.old.made }
        ensures made { self.new.made ≡ self.old.made }
        ensures room { self.new.room ≡ self.old.room }
        ensures stands { (calls : List TimerCall) → StandsFor self.old calls → StandsFor self.new (Arm id.number expire ∷ calls) }
    {
        let stamp = fresh_stamp(&mut self.due, &mut self.waiting, &mut self.ranks, self.next);
        self.due.clear(id.number as usize);
        self.waiting
            .set(id.number as usize, key_of(from_zero(expire), stamp));
        self.next = stamp + 1;
    }

    /// Whether the timer was armed. It isn't from now on.
    pub fn disarm(&mut self, id: TimerId) -> bool
        ensures made { self.new.made ≡ self.old.made }
        ensures room { self.new.room ≡ self.old.room }
        ensures was_armed { (calls : List TimerCall) → StandsFor self.old calls → result ≡ is_armed id.number calls }
        ensures stands { (calls : List TimerCall) → StandsFor self.old calls → StandsFor self.new (Disarm id.number ∷ calls) }
    {
        if id.number >= self.made {
            return false;
        }
        take_off(&mut self.due, &mut self.waiting, id.number)
    }

    /// The earliest expiry; `None` where no timer is armed.
    pub fn first(&self) -> Option<u64>
        ensures { (calls : List TimerCall) → StandsFor self.now calls → MatchOption result (IsNone is_armed calls) (IsEarliest calls) }
    {
        let key = self.due.least().min(self.waiting.least());
        if key == NONE {
            return None;
        }
        Some(expiry_of(key))
    }

    /// Begins a run of the timers that are armed and have expired by now.
    pub fn run_begin(&mut self, now: u64)
        ensures made { self.new.made ≡ self.old.made }
        ensures room { self.new.room ≡ self.old.room }
        ensures stands { (calls : List TimerCall) → StandsFor self.old calls → StandsFor self.new (RunBegin now ∷ calls) }
    {
        move_keys(&mut self.due, &mut self.waiting, NONE);
        move_keys(&mut self.waiting, &mut self.due, key_of(now, u64::MAX));
    }

    /// The next timer of the run, which isn't armed any more; `None` where the run has given all.
    pub fn run_next(&mut self) -> Option<TimerId>
        ensures made { self.new.made ≡ self.old.made }
        ensures room { self.new.room ≡ self.old.room }
        ensures next { (calls : List TimerCall) → StandsFor self.old calls → MatchOption result (IsNone is_marked calls) (λ id. IsFirstOfKind is_marked calls id.number) }
        ensures stands { IfSome result (λ id. (calls : List TimerCall) → StandsFor self.old calls → StandsFor self.new (Give id.number ∷ calls)) }
        ensures unchanged { IfNone result (self.new ≡ self.old) }
    {
        let place = self.due.place_of_least()?;
        self.due.set(place, NONE);
        Some(TimerId {
            number: place as u32,
        })
    }
}
