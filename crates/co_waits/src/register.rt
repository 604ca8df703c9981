//! Who holds and who waits.
ghost use Rattle.std.specs.Prelude.{◌≡◌, ◌<◌, ◌++◌, ◌∷◌, [], IfOk, IsTrue, IsFalse};
ghost use Rattle.co_waits.specs.Registers.{is_written, readers_in, is_vacant, lets_readers_in, is_single};
ghost use Rattle.aio_model.specs.declared.holds.Hold.TheVariants.{Free};
ghost use Rattle.aio_model.specs.Holds.WhoHolds.{Readers, Writer, waiting, hold_of};
ghost use Rattle.aio_model.specs.Holds.{Has, IsOrderly};
ghost use Rattle.aio_model.specs.Holds.Table.{with_ticket, released, stepped_back, wake_one};

use aio_chain::Links;
use aio_model::{Hold, NoMemory, Wish};
use std::alloc::Global;
use std::marker::Model;

/// Those that read or the one that writes, and the tickets in order of arrival.
#[derive(Debug, Drop)]
pub(crate) struct Register {
    readers: Links,
    writer: Option<u32>,
    tickets: Links,
    /// What each owner waits for, if it has a ticket.
    wishes: Vec<Wish>,
}

impl Model for Register {
    ghost use Rattle.aio_model.specs.Holds.WhoHolds.{ReadersWriter};

    ghost Value = { ReadersWriter };

    ghost use Rattle.co_waits.specs.Registers.{state_in, AreKept};

    ghost view = { λ r. state_in r.readers r.writer r.tickets r.wishes.items };

    ghost invariant = { λ r. AreKept r.readers r.writer r.tickets r.wishes.items };
}

impl Register {
    pub(crate) fn build(alloc: Global, room: u32) -> Result<Register, NoMemory>
        ensures { IfOk result (λ register. register ≡ record { room = room; holders = Readers []; tickets = [] }) }
    {
        let readers = Links::build(alloc, room)?;
        let tickets = Links::build(alloc, room)?;
        let Ok(wishes) = vec![in alloc; Wish::Read; room as usize] else {
            return Err(NoMemory);
        };
        Ok(Register {
            readers,
            writer: None,
            tickets,
            wishes,
        })
    }

    fn waiting(&self, who: u32) -> Hold
        ensures { result ≡ waiting who self.now.tickets }
    {
        if !self.tickets.has(who) {
            return Hold::Free;
        }
        match self.wishes[who as usize] {
            Wish::Read => Hold::WaitsRead,
            Wish::Write => Hold::WaitsWrite,
        }
    }

    pub(crate) fn hold(&self, who: u32) -> Hold
        ensures hold { result ≡ hold_of self.now who }
        ensures orderly { IsOrderly self.now }
    {
        let waits = self.waiting(who);
        match self.writer {
            Some(writer) => if writer == who { Hold::Writes } else { waits },
            None => if self.readers.has(who) {
                Hold::Reads
            } else {
                waits
            },
        }
    }

    /// Whether nobody holds.
    pub(crate) fn is_vacant(&self) -> bool
        ensures vacant { result ≡ is_vacant self.now.holders }
        ensures orderly { IsOrderly self.now }
    {
        match self.writer {
            Some(_) => false,
            None => self.readers.first().is_none(),
        }
    }

    /// Whether a reader may come in.
    pub(crate) fn is_open(&self) -> bool
        ensures open { result ≡ lets_readers_in self.now.holders self.now.tickets }
        ensures orderly { IsOrderly self.now }
    {
        match self.writer {
            Some(_) => false,
            None => self.readers.first().is_none() || self.tickets.first().is_none(),
        }
    }

    /// Whether one reads and nobody waits.
    pub(crate) fn is_single(&self) -> bool
        ensures single { result ≡ is_single self.now.holders self.now.tickets }
        ensures orderly { IsOrderly self.now }
    {
        if self.writer.is_some() || self.tickets.first().is_some() {
            return false;
        }
        match self.readers.first() {
            Some(reader) => self.readers.next(reader).is_none(),
            None => false,
        }
    }

    /// Lets a reader in.
    pub(crate) fn read(&mut self, who: u32)
        requires below { who < self.old.room }
        requires free { hold_of self.old who ≡ Free }
        requires unwritten { IsFalse (is_written self.old.holders) }
        ensures read { self.new ≡ record self.old { holders = Readers (readers_in self.old.holders ++ who ∷ []) } }
    {
        self.readers.push_back(who);
    }

    /// Lets a writer in.
    pub(crate) fn write(&mut self, who: u32)
        requires below { who < self.old.room }
        requires free { hold_of self.old who ≡ Free }
        requires vacant { IsTrue (is_vacant self.old.holders) }
        ensures written { self.new ≡ record self.old { holders = Writer who } }
    {
        self.writer = Some(who);
    }

    /// Gives a ticket out.
    pub(crate) fn queue(&mut self, who: u32, wish: Wish)
        requires below { who < self.old.room }
        requires free { hold_of self.old who ≡ Free }
        ensures queued { self.new ≡ with_ticket who wish self.old }
    {
        self.tickets.push_back(who);
        self.wishes[who as usize] = wish;
    }

    /// Takes a hold back.
    pub(crate) fn release(&mut self, who: u32)
        requires held { Has (hold_of self.old who) }
        ensures released { self.new ≡ released who self.old }
        ensures free { hold_of self.new who ≡ Free }
    {
        match self.writer {
            Some(_) => self.writer = None,
            None => self.readers.unlink(who),
        }
    }

    /// Takes a reader's hold back, and gives a ticket out for it to write.
    pub(crate) fn step_back(&mut self, who: u32)
        requires below { who < self.old.room }
        requires held { Has (hold_of self.old who) }
        ensures stepped { self.new ≡ stepped_back who self.old }
    {
        self.release(who);
        self.queue(who, Wish::Write);
    }

    /// Grants the first ticket, if it can be.
    pub(crate) fn wake_one(&mut self) -> Option<u32>
        ensures woken { result ≡ (wake_one self.old).woken }
        ensures left { self.new ≡ (wake_one self.old).state }
    {
        let who = self.tickets.first()?;
        if self.writer.is_some() {
            return None;
        }
        match self.wishes[who as usize] {
            Wish::Read => {
                self.tickets.unlink(who);
                self.readers.push_back(who);
                Some(who)
            }
            Wish::Write => {
                if self.readers.first().is_some() {
                    return None;
                }
                self.tickets.unlink(who);
                self.writer = Some(who);
                Some(who)
            }
        }
    }
}
