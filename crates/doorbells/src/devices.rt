//! The callbacks of the doorbells.
ghost use Rattle.std.specs.Prelude.{◌≡◌, ◌<◌, ◌==◌, ◌&&◌, true, if◌then◌else◌, length, get_or, IfOk, ℕ};
ghost use Rattle.aio_model.specs.Loop.History.{History};
ghost use Rattle.aio_model.specs.Loop.Legal.{IsLegal};
ghost use Rattle.aio_bh.specs.Running.{SeatComesBack};
ghost use Rattle.doorbells.specs.Responding.{count_of, PassesOn, AreFit};
ghost use Rattle.aio_model.specs.Counts.{one_more};
ghost use Rattle.aio_core.specs.Calls.{IsReady};

use crate::ringing::ring;
use aio_bh::{Call, Runner, Turn};
use aio_core::{LoopTable, Seat};
use std::alloc::{AllocError, Global};
use std::sync::Wait;

/// What the devices do when their doorbells are answered: each answer is counted, and where `from` is answered its device
/// rings `to`.
#[derive(Drop)]
pub struct Devices<'a, R: Wait> {
    pub(crate) rt: &'a R,
    /// How often each doorbell was answered. A count stays at the greatest u64.
    pub answered: Vec<u64>,
    /// How many rings of `to` a device made that were new.
    pub passed_on: u64,
    pub from: u32,
    pub to: u32,
}

impl<'a, R: Wait> Devices<'a, R> {
    /// Devices for so many doorbells, none of which was answered yet.
    pub fn build(
        rt: &'a R,
        alloc: Global,
        bells: u32,
        from: u32,
        to: u32,
    ) -> Result<Devices<'a, R>, AllocError>
        requires { to < bells }
        ensures { IfOk result (λ devices. AreFit bells devices.answered.items devices.to × (devices.from ≡ from) × (devices.to ≡ to) × (devices.passed_on ≡ 0)) }
    {
        let answered = vec![in alloc; 0; bells as usize]?;
        Ok(Devices {
            rt,
            answered,
            passed_on: 0,
            from,
            to,
        })
    }

    /// Counts an answer.
    fn note(&mut self, bell: u32)
        ensures long { length self.new.answered.items ≡ length self.old.answered.items }
        ensures each { (b : ℕ) → b < length self.old.answered.items → count_of self.new.answered.items b ≡ (if b == bell then one_more (count_of self.old.answered.items b) else count_of self.old.answered.items b) }
        ensures same { (self.new.passed_on ≡ self.old.passed_on) × (self.new.from ≡ self.old.from) × (self.new.to ≡ self.old.to) }
    {
        let place = bell as usize;
        if place < self.answered.len() {
            self.answered[place] = self.answered[place].saturating_add(1);
        }
    }

    /// Rings `to`, and counts the ring if it is new.
    fn pass_on(&mut self, table: &LoopTable<()>, seat: &mut Seat<()>)
        requires seat { IsReady table.now seat.old }
        requires home { seat.old.known.first ≡ 64 }
        requires to { self.old.to < table.now.sizes.handles }
        ensures seat { IsReady table.now seat.new }
        ensures made { (made : History) × SeatComesBack made seat.old.known seat.new.known × PassesOn true self.old.to made self.old.passed_on self.new.passed_on }
        ensures same { (self.new.answered.items ≡ self.old.answered.items) × (self.new.from ≡ self.old.from) × (self.new.to ≡ self.old.to) }
    {
        let found = ring(self.rt, table, seat, self.to);
        if !found.pending && !found.deleted {
            self.passed_on = self.passed_on.saturating_add(1);
        }
    }

    /// Rings `to` where this is `from`.
    fn respond(&mut self, table: &LoopTable<()>, seat: &mut Seat<()>, bell: u32)
        requires seat { IsReady table.now seat.old }
        requires home { seat.old.known.first ≡ 64 }
        requires legal { IsLegal table.now.sizes seat.old.known.seen }
        requires to { self.old.to < table.now.sizes.handles }
        ensures seat { IsReady table.now seat.new }
        ensures made { (made : History) × SeatComesBack made seat.old.known seat.new.known × PassesOn (self.old.from == bell) self.old.to made self.old.passed_on self.new.passed_on }
        ensures same { (self.new.answered.items ≡ self.old.answered.items) × (self.new.from ≡ self.old.from) × (self.new.to ≡ self.old.to) }
    {
        if self.from == bell {
            self.pass_on(table, seat);
        }
    }
}

impl<'a, R: Wait> Runner<()> for Devices<'a, R> {
    ghost use Rattle.std.specs.Prelude.{◌≡◌, ◌==◌, ◌&&◌};
    ghost use Rattle.aio_model.specs.Loop.Frame.{Ended};
    ghost use Rattle.doorbells.specs.Responding.{CountsOne, PassesOn, AreFit, answers};

    ghost can_run = { λ devices sizes. AreFit sizes.handles devices.answered.items devices.to };

    ghost does = { λ before entered after. CountsOne entered before.answered.items after.answered.items × PassesOn (answers before.from entered) before.to entered.made before.passed_on after.passed_on × (after.from ≡ before.from) × (after.to ≡ before.to) × (entered.answer ≡ Ended) };

    fn run(&mut self, table: &LoopTable<()>, seat: &mut Seat<()>, call: &mut Call<()>) -> Turn {
        if call.first {
            self.note(call.bh);
            self.respond(table, seat, call.bh);
        }
        Turn::Done
    }
}
