//! Readers and a writer, by the table and over plain lists, for the tests to compare with.
use aio_model::{Hold, RwAnswer};
use std::alloc::{AllocError, Global};

/// Those that hold, whether they write, and the tickets, each with whether its owner is to write.
#[derive(Drop)]
pub(crate) struct Plain {
    holders: Vec<u32>,
    is_written: bool,
    tickets: Vec<(u32, bool)>,
}

impl Plain {
    pub(crate) fn build(alloc: Global) -> Plain {
        Plain {
            holders: Vec::new(alloc),
            is_written: false,
            tickets: Vec::new(alloc),
        }
    }

    pub(crate) fn hold(&self, who: u32) -> Hold {
        for holder in &self.holders {
            if *holder == who {
                return if self.is_written {
                    Hold::Writes
                } else {
                    Hold::Reads
                };
            }
        }
        for (owner, writes) in &self.tickets {
            if *owner == who {
                return if *writes {
                    Hold::WaitsWrite
                } else {
                    Hold::WaitsRead
                };
            }
        }
        Hold::Free
    }

    pub(crate) fn rdlock(&mut self, who: u32) -> Result<RwAnswer, AllocError> {
        if self.holders.is_empty() || (!self.is_written && self.tickets.is_empty()) {
            self.holders.push(who)?;
            return Ok(RwAnswer::Got);
        }
        self.tickets.push((who, false))?;
        Ok(RwAnswer::Queued)
    }

    pub(crate) fn wrlock(&mut self, who: u32) -> Result<RwAnswer, AllocError> {
        if self.holders.is_empty() {
            self.holders.push(who)?;
            self.is_written = true;
            return Ok(RwAnswer::Got);
        }
        self.tickets.push((who, true))?;
        Ok(RwAnswer::Queued)
    }

    pub(crate) fn wake_one(&mut self) -> Result<Option<u32>, AllocError> {
        let Some((who, writes)) = self.tickets.first().copied() else {
            return Ok(None);
        };
        if !self.holders.is_empty() && (writes || self.is_written) {
            return Ok(None);
        }
        // It is the one that was copied above.
        let _ = self.tickets.remove(0);
        self.holders.push(who)?;
        self.is_written = writes;
        Ok(Some(who))
    }

    fn release(&mut self, who: u32) {
        self.holders.retain(|holder| *holder != who);
        self.is_written = false;
    }

    pub(crate) fn unlock(&mut self, who: u32) -> Result<Option<u32>, AllocError> {
        self.release(who);
        self.wake_one()
    }

    pub(crate) fn downgrade(&mut self) -> Result<Option<u32>, AllocError> {
        self.is_written = false;
        self.wake_one()
    }

    pub(crate) fn upgrade(&mut self, who: u32) -> Result<(RwAnswer, Option<u32>), AllocError> {
        if self.holders.len() == 1 && self.tickets.is_empty() {
            self.is_written = true;
            return Ok((RwAnswer::Got, None));
        }
        self.release(who);
        self.tickets.push((who, true))?;
        let woken = self.wake_one()?;
        Ok((RwAnswer::Queued, woken))
    }
}
