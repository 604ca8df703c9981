//! A device in memory, of whose calls some may fail.
ghost use Rattle.std.specs.Prelude.{◌≡◌, ◌+◌, ◌≤◌, [], ◌∷◌, Some, length, take, drop, replicate, refl, option_map, is_err, IfOk, IfSome, OnErr, OnOk};
ghost use Rattle.aio_model.specs.Serving.{put_at};
ghost use Rattle.aio_words.specs.Called.{device_call};
ghost use Rattle.aio_words.specs.Calls.{is_listed};
ghost use Rattle.aio_words.specs.Faults.{HasRisen};
ghost use Rattle.aio_model.specs.Counts.{one_more};

use crate::calls::{copy_of, is_listed, one_more};
use crate::{Device, DeviceAsk, DeviceCall, Failed, NoMemory, Trail};
use std::alloc::Global;
use std::marker::Model;

/// A device in memory. All its calls, of whatever kind, are numbered from 0 in one row, and those of given numbers
/// fail.
#[derive(Debug, Drop)]
pub struct MemDevice {
    bytes: Vec<u8>,
    fails: Vec<u32>,
    calls: u64,
    size_faults: u64,
    faults: u64,
    called: Trail<DeviceCall>,
}

impl Model for MemDevice {
    ghost use Rattle.aio_words.specs.DeviceState.{DeviceState};

    ghost Value = { DeviceState };

    ghost view = { λ d. record {
      bytes = d.bytes.items;
      fails = d.fails.items;
      calls = d.calls;
      size_faults = d.size_faults;
      faults = d.faults;
      called = d.called;
    } };
}

impl MemDevice {
    /// A device of these bytes, which fails at the calls of these numbers.
    pub fn build(alloc: Global, bytes: &[u8], fails: &[u32]) -> Result<MemDevice, NoMemory>
        ensures { IfOk result (λ device. device ≡ record {
          bytes = bytes.now;
          fails = fails.now;
          calls = 0;
          size_faults = 0;
          faults = 0;
          called = [];
        }) }
    {
        Ok(MemDevice {
            bytes: copy_of(alloc, bytes)?,
            fails: copy_of(alloc, fails)?,
            calls: 0,
            size_faults: 0,
            faults: 0,
            called: Trail::empty(),
        })
    }

    /// A device of so many zeros, none of whose calls fails.
    pub fn zeros(alloc: Global, len: u32) -> Result<MemDevice, NoMemory>
        ensures { IfOk result (λ device. device ≡ record {
          bytes = replicate len 0;
          fails = [];
          calls = 0;
          size_faults = 0;
          faults = 0;
          called = [];
        }) }
    {
        let Ok(bytes) = vec![in alloc; 0; len as usize] else {
            return Err(NoMemory);
        };
        Ok(MemDevice {
            bytes,
            fails: Vec::new(alloc),
            calls: 0,
            size_faults: 0,
            faults: 0,
            called: Trail::empty(),
        })
    }

    /// The bytes that it has now.
    pub fn bytes(&self) -> &[u8]
        ensures { result.now ≡ self.now.bytes }
    {
        self.bytes.as_slice()
    }

    /// Counts and notes a call, and tells whether its number is listed.
    fn note(&mut self, ask: DeviceAsk) -> bool
        ensures fails { result ≡ is_listed self.old.fails self.old.calls }
        ensures after { self.new ≡ record self.old {
          calls = one_more self.old.calls;
          called = device_call ask result ∷ self.old.called;
        } }
    {
        let failed = is_listed(&self.fails, self.calls);
        self.calls = one_more(self.calls);
        self.called.note(&DeviceCall { ask, failed });
        failed
    }

    /// Counts a call that isn't of `size`, and a fault where its number is listed.
    fn count(&mut self, ask: DeviceAsk) -> Result<(), Failed>
        ensures fails { is_err result ≡ is_listed self.old.fails self.old.calls }
        ensures after { OnOk result (self.new ≡ record self.old {
          calls = one_more self.old.calls;
          called = device_call ask (is_err result) ∷ self.old.called;
        }) }
        ensures failed { OnErr result (self.new ≡ record self.old {
          calls = one_more self.old.calls;
          faults = one_more self.old.faults;
          called = device_call ask (is_err result) ∷ self.old.called;
        }) }
        ensures counted { self.old.faults ≤ self.new.faults }
        ensures called { self.new.called ≡ device_call ask (is_err result) ∷ self.old.called }
    {
        if self.note(ask) {
            self.faults = one_more(self.faults);
            return Err(Failed);
        }
        Ok(())
    }
}

impl Device for MemDevice {
    ghost extent = { λ d. length d.bytes };

    ghost bytes = { λ d. Some d.bytes };

    ghost size_faults = { λ d. d.size_faults };

    ghost faults = { λ d. d.faults };

    ghost calls = { λ d. d.called };

    ghost as_many = { λ _. refl };

    fn size(&mut self) -> Result<u64, Failed>
        // A call fails exactly where its number is listed.
        ensures fails { is_err result ≡ is_listed self.old.fails self.old.calls }
        ensures after { OnOk result (self.new ≡ record self.old {
          calls = one_more self.old.calls;
          called = device_call DeviceAsk.Size (is_err result) ∷ self.old.called;
        }) }
        ensures failed { OnErr result (self.new ≡ record self.old {
          calls = one_more self.old.calls;
          size_faults = one_more self.old.size_faults;
          called = device_call DeviceAsk.Size (is_err result) ∷ self.old.called;
        }) }

        // What every device promises.
        ensures value { IfOk result (λ n. n ≡ length self.old.bytes) }
        ensures bytes { Some self.new.bytes ≡ Some self.old.bytes }
        ensures extent { length self.new.bytes ≡ length self.old.bytes }
        ensures counted { self.old.size_faults ≤ self.new.size_faults }
        ensures cause { OnErr result (HasRisen self.old.size_faults self.new.size_faults) }
        ensures others { self.new.faults ≡ self.old.faults }
        ensures called { self.new.called ≡ device_call DeviceAsk.Size (is_err result) ∷ self.old.called }
    {
        if self.note(DeviceAsk::Size) {
            self.size_faults = one_more(self.size_faults);
            return Err(Failed);
        }
        Ok(self.bytes.len() as u64)
    }

    fn read_at(&mut self, at: u64, buf: &mut [u8]) -> Result<(), Failed>
        requires { at + length buf.old ≤ length self.old.bytes }

        // A call fails exactly where its number is listed.
        ensures fails { is_err result ≡ is_listed self.old.fails self.old.calls }
        ensures after { OnOk result (self.new ≡ record self.old {
          calls = one_more self.old.calls;
          called = device_call (DeviceAsk.Read at (length buf.old)) (is_err result) ∷ self.old.called;
        }) }
        ensures failed { OnErr result (self.new ≡ record self.old {
          calls = one_more self.old.calls;
          faults = one_more self.old.faults;
          called = device_call (DeviceAsk.Read at (length buf.old)) (is_err result) ∷ self.old.called;
        }) }

        // What every device promises.
        ensures found { OnOk result (IfSome (Some self.old.bytes)
            (λ told. buf.new ≡ take (length buf.old) (drop at told))) }
        ensures bytes { Some self.new.bytes ≡ Some self.old.bytes }
        ensures extent { length self.new.bytes ≡ length self.old.bytes }
        ensures counted { self.old.faults ≤ self.new.faults }
        ensures cause { OnErr result (HasRisen self.old.faults self.new.faults) }
        ensures sizes { self.new.size_faults ≡ self.old.size_faults }
        ensures called { self.new.called ≡ device_call (DeviceAsk.Read at (length buf.old)) (is_err result) ∷ self.old.called }
    {
        self.count(DeviceAsk::Read {
            at,
            length: buf.len(),
        })?;
        find(&self.bytes, at as usize, buf);
        Ok(())
    }

    fn write_at(&mut self, at: u64, piece: &[u8]) -> Result<(), Failed>
        requires { at + length piece.now ≤ length self.old.bytes }

        // A call fails exactly where its number is listed.
        ensures fails { is_err result ≡ is_listed self.old.fails self.old.calls }
        ensures after { OnOk result (self.new ≡ record self.old {
          bytes = put_at at piece.now self.old.bytes;
          calls = one_more self.old.calls;
          called = device_call (DeviceAsk.Write at (length piece.now)) (is_err result) ∷ self.old.called;
        }) }
        ensures failed { OnErr result (self.new ≡ record self.old {
          calls = one_more self.old.calls;
          faults = one_more self.old.faults;
          called = device_call (DeviceAsk.Write at (length piece.now)) (is_err result) ∷ self.old.called;
        }) }

        // What every device promises.
        ensures put { OnOk result (Some self.new.bytes ≡ option_map (put_at at piece.now) (Some self.old.bytes)) }
        ensures kept { OnErr result (Some self.new.bytes ≡ Some self.old.bytes) }
        ensures extent { length self.new.bytes ≡ length self.old.bytes }
        ensures counted { self.old.faults ≤ self.new.faults }
        ensures cause { OnErr result (HasRisen self.old.faults self.new.faults) }
        ensures sizes { self.new.size_faults ≡ self.old.size_faults }
        ensures called { self.new.called ≡ device_call (DeviceAsk.Write at (length piece.now)) (is_err result) ∷ self.old.called }
    {
        self.count(DeviceAsk::Write {
            at,
            length: piece.len(),
        })?;
        put(&mut self.bytes, at as usize, piece);
        Ok(())
    }

    fn flush(&mut self) -> Result<(), Failed>
        // A call fails exactly where its number is listed.
        ensures fails { is_err result ≡ is_listed self.old.fails self.old.calls }
        ensures after { OnOk result (self.new ≡ record self.old {
          calls = one_more self.old.calls;
          called = device_call DeviceAsk.Flush (is_err result) ∷ self.old.called;
        }) }
        ensures failed { OnErr result (self.new ≡ record self.old {
          calls = one_more self.old.calls;
          faults = one_more self.old.faults;
          called = device_call DeviceAsk.Flush (is_err result) ∷ self.old.called;
        }) }

        // What every device promises.
        ensures bytes { Some self.new.bytes ≡ Some self.old.bytes }
        ensures extent { length self.new.bytes ≡ length self.old.bytes }
        ensures counted { self.old.faults ≤ self.new.faults }
        ensures cause { OnErr result (HasRisen self.old.faults self.new.faults) }
        ensures sizes { self.new.size_faults ≡ self.old.size_faults }
        ensures called { self.new.called ≡ device_call DeviceAsk.Flush (is_err result) ∷ self.old.called }
    {
        self.count(DeviceAsk::Flush)
    }
}

/// Fills the buffer with the bytes from this place on.
fn find(bytes: &[u8], at: usize, buf: &mut [u8])
    requires { at + length buf.old ≤ length bytes.now }
    ensures { buf.new ≡ take (length buf.old) (drop at bytes.now) }
{
    buf.copy_from_slice(&bytes[at..at + buf.len()]);
}

/// Puts the piece at this place.
fn put(bytes: &mut [u8], at: usize, piece: &[u8])
    requires { at + length piece.now ≤ length bytes.old }
    ensures { bytes.new ≡ put_at at piece.now bytes.old }
{
    bytes[at..at + piece.len()].copy_from_slice(piece);
}
