//! After CoRwlock of QEMU's util/qemu-coroutine-lock.c, by rules of this library's own.
//!
//! Tickets stand in order of arrival. A reader comes in where nobody holds, and beside readers where nobody waits,
//! so no reader passes a writer that waits. Who gives a hold up grants the first ticket if it can be granted. Who
//! was granted a hold calls `woken`, which grants the next: a row of readers comes in one after another.
ghost use Rattle.std.specs.Prelude.{◌≡◌, ◌≢◌, ℕ, ◌<◌, IfOk, IfSome};
ghost use Rattle.std.specs.Prelude.{[]};
ghost use Rattle.aio_model.specs.declared.holds.Hold.TheVariants.{Free, Reads, Writes, WaitsRead, WaitsWrite};
ghost use Rattle.aio_model.specs.Holds.WhoHolds.{Readers, hold_of};
ghost use Rattle.aio_model.specs.Holds.{Has, HasTicket, after_wake, answered, WriterIsAlone, IsSettled};
ghost use Rattle.aio_model.specs.Holds.Table.{read_locked, write_locked, unlocked, upgraded, downgraded, wake_one};

use crate::register::Register;
use aio_model::{Hold, NoMemory, RwAnswer, Wish};
use std::alloc::Global;
use std::marker::Model;

/// Who reads or writes, and who waits to. Owners are numbers below the room. Contracts see the readers or the
/// writer, and the tickets.
#[derive(Debug, Drop)]
pub struct RwState {
    register: Register,
}

impl Model for RwState {
    ghost use Rattle.aio_model.specs.Holds.WhoHolds.{ReadersWriter};

    ghost Value = { ReadersWriter };

    ghost view = { λ s. s.register };

    ghost use Rattle.aio_model.specs.Holds.{IsSettled};

    ghost invariant = { λ s. IsSettled s.register };
}

/// What an upgrade answers: whether it was got at once, and whom to wake.
#[derive(Clone, Copy, Debug, PartialEq, Eq)]
pub struct Moved {
    pub answer: RwAnswer,
    pub woken: Option<u32>,
}

impl RwState {
    /// For owners below `room`, all of whom are free. No later call takes memory.
    pub fn build(alloc: Global, room: u32) -> Result<RwState, NoMemory>
        ensures { IfOk result (λ state. state ≡ record { room = room; holders = Readers []; tickets = [] }) }
    {
        let register = Register::build(alloc, room)?;
        Ok(RwState { register })
    }

    pub fn hold(&self, who: u32) -> Hold
        ensures hold { result ≡ hold_of self.now who }
        ensures alone { WriterIsAlone (hold_of self.now) }
        ensures settled { IsSettled self.now }
    {
        self.register.hold(who)
    }

    /// Asks to read.
    pub fn rdlock(&mut self, who: u32) -> RwAnswer
        requires below { who < self.old.room }
        requires free { hold_of self.old who ≡ Free }
        ensures answer { result ≡ (read_locked who self.old).answer }
        ensures left { self.new ≡ (read_locked who self.old).state }
        ensures own { hold_of self.new who ≡ answered result Reads WaitsRead }
        ensures others { (other : ℕ) → other ≢ who → hold_of self.new other ≡ hold_of self.old other }
        ensures room { self.new.room ≡ self.old.room }
    {
        if self.register.is_open() {
            self.register.read(who);
            RwAnswer::Got
        } else {
            self.register.queue(who, Wish::Read);
            RwAnswer::Queued
        }
    }

    /// Asks to write.
    pub fn wrlock(&mut self, who: u32) -> RwAnswer
        requires below { who < self.old.room }
        requires free { hold_of self.old who ≡ Free }
        ensures answer { result ≡ (write_locked who self.old).answer }
        ensures left { self.new ≡ (write_locked who self.old).state }
        ensures own { hold_of self.new who ≡ answered result Writes WaitsWrite }
        ensures others { (other : ℕ) → other ≢ who → hold_of self.new other ≡ hold_of self.old other }
        ensures room { self.new.room ≡ self.old.room }
    {
        if self.register.is_vacant() {
            self.register.write(who);
            RwAnswer::Got
        } else {
            self.register.queue(who, Wish::Write);
            RwAnswer::Queued
        }
    }

    /// Gives a hold up, and answers whom to wake.
    pub fn unlock(&mut self, who: u32) -> Option<u32>
        requires held { Has (hold_of self.old who) }
        ensures woken { result ≡ (unlocked who self.old).woken }
        ensures left { self.new ≡ (unlocked who self.old).state }
        ensures own { hold_of self.new who ≡ Free }
        ensures others { (other : ℕ) → other ≢ who → hold_of self.new other ≡ after_wake result other (hold_of self.old other) }
        ensures granted { IfSome result (λ w. HasTicket (hold_of self.old w) × Has (hold_of self.new w)) }
        ensures room { self.new.room ≡ self.old.room }
    {
        self.register.release(who);
        self.register.wake_one()
    }

    /// Turns a reader into the writer, at once where it reads alone and nobody waits. Else it gives its hold up and
    /// waits behind all others.
    pub fn upgrade(&mut self, who: u32) -> Moved
        requires reads { hold_of self.old who ≡ Reads }
        ensures answer { result.answer ≡ (upgraded who self.old).answer }
        ensures woken { result.woken ≡ (upgraded who self.old).woken }
        ensures left { self.new ≡ (upgraded who self.old).state }
        ensures own { hold_of self.new who ≡ answered result.answer Writes WaitsWrite }
        ensures others { (other : ℕ) → other ≢ who → hold_of self.new other ≡ after_wake result.woken other (hold_of self.old other) }
        ensures granted { IfSome result.woken (λ w. HasTicket (hold_of self.old w) × Has (hold_of self.new w)) }
        ensures room { self.new.room ≡ self.old.room }
    {
        if self.register.is_single() {
            self.register.release(who);
            self.register.write(who);
            Moved {
                answer: RwAnswer::Got,
                woken: None,
            }
        } else {
            self.register.step_back(who);
            let woken = self.register.wake_one();
            Moved {
                answer: RwAnswer::Queued,
                woken,
            }
        }
    }

    /// Turns the writer into a reader, and answers whom to wake.
    pub fn downgrade(&mut self, who: u32) -> Option<u32>
        requires writes { hold_of self.old who ≡ Writes }
        ensures woken { result ≡ (downgraded who self.old).woken }
        ensures left { self.new ≡ (downgraded who self.old).state }
        ensures own { hold_of self.new who ≡ Reads }
        ensures others { (other : ℕ) → other ≢ who → hold_of self.new other ≡ after_wake result other (hold_of self.old other) }
        ensures granted { IfSome result (λ w. HasTicket (hold_of self.old w) × Has (hold_of self.new w)) }
        ensures room { self.new.room ≡ self.old.room }
    {
        self.register.release(who);
        self.register.read(who);
        self.register.wake_one()
    }

    /// Whoever was woken calls it, and wakes whom it answers.
    pub fn woken(&mut self, who: u32) -> Option<u32>
        requires held { Has (hold_of self.old who) }
        ensures woken { result ≡ (wake_one self.old).woken }
        ensures left { self.new ≡ (wake_one self.old).state }
        ensures all { (other : ℕ) → hold_of self.new other ≡ after_wake result other (hold_of self.old other) }
        ensures granted { IfSome result (λ w. HasTicket (hold_of self.old w) × Has (hold_of self.new w)) }
        ensures room { self.new.room ≡ self.old.room }
    {
        self.register.wake_one()
    }
}
