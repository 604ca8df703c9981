//! A device of which one call fails.
ghost use Rattle.std.specs.Prelude.{◌≡◌, ◌≤◌, ◌∷◌, is_err, length, IfOk, OnErr};
ghost use Rattle.aio_words.specs.Called.{device_call};
ghost use Rattle.aio_words.specs.Faults.{HasRisen};

use aio_words::{Device, DeviceAsk, DeviceCall, Failed, Trail};

/// A number that no call has.
pub(crate) const NEVER: u64 = u64::MAX;

/// A device in memory, one of whose calls fails. It doesn't tell its bytes.
#[derive(Debug, Drop)]
pub(crate) struct Disk {
    pub(crate) bytes: Vec<u8>,
    /// How many calls there were, but for those of `size`.
    pub(crate) calls: u64,
    pub(crate) failing: u64,
    pub(crate) faults: u64,
    called: Trail<DeviceCall>,
}

impl Disk {
    pub(crate) fn new(bytes: Vec<u8>, failing: u64) -> Disk
        ensures { result.bytes ≡ bytes }
    {
        Disk {
            bytes,
            calls: 0,
            failing,
            faults: 0,
            called: Trail::empty(),
        }
    }

    /// Counts and notes a call, and tells whether it fails.
    fn call(&mut self, ask: DeviceAsk) -> Result<(), Failed>
        ensures bytes { self.new.bytes ≡ self.old.bytes }
        ensures counted { self.old.faults ≤ self.new.faults }
        ensures cause { OnErr result (HasRisen self.old.faults self.new.faults) }
        ensures called { self.new.called ≡ device_call ask (is_err result) ∷ self.old.called }
    {
        let call = self.calls;
        self.calls = call.saturating_add(1);
        let failed = call == self.failing;
        self.called.note(&DeviceCall { ask, failed });
        if failed {
            self.faults = self.faults.saturating_add(1);
            return Err(Failed);
        }
        Ok(())
    }
}

impl Device for Disk {
    ghost use Rattle.std.specs.Prelude.{None};

    ghost extent = { λ d. length d.bytes.items };

    ghost bytes = { λ _. None };

    ghost size_faults = { λ _. 0 };

    ghost faults = { λ d. d.faults };

    ghost calls = { λ d. d.called };

    ghost as_many = { λ _. tt };

    fn size(&mut self) -> Result<u64, Failed> {
        self.called.note(&DeviceCall {
            ask: DeviceAsk::Size,
            failed: false,
        });
        Ok(self.bytes.len() as u64)
    }

    fn read_at(&mut self, at: u64, buf: &mut [u8]) -> Result<(), Failed> {
        self.call(DeviceAsk::Read {
            at,
            length: buf.len(),
        })?;
        let from = at as usize;
        buf.copy_from_slice(&self.bytes[from..from + buf.len()]);
        Ok(())
    }

    fn write_at(&mut self, at: u64, piece: &[u8]) -> Result<(), Failed> {
        self.call(DeviceAsk::Write {
            at,
            length: piece.len(),
        })?;
        let from = at as usize;
        self.bytes[from..from + piece.len()].copy_from_slice(piece);
        Ok(())
    }

    fn flush(&mut self) -> Result<(), Failed> {
        self.call(DeviceAsk::Flush)
    }
}
