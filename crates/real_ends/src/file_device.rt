//! A device on a raw file.
ghost use Rattle.std.specs.Prelude.{◌≡◌, ◌+◌, ◌≤◌, [], ◌∷◌, None, length, is_err, is_some, not, true, false, IfOk, IsOkAnd, OnErr, OnOk};
ghost use Rattle.aio_words.specs.Called.{device_call};
ghost use Rattle.aio_words.specs.Faults.{HasRisen};
ghost use Rattle.aio_model.specs.Counts.{one_more};

use aio_words::{Device, DeviceAsk, DeviceCall, Failed, NoMemory, Trail};
use std::fs::{File, OpenFile, OpenOptions};
use std::io;
use std::marker::Model;
use std::os::unix::fs::FileExt;
use std::rt::Files;

/// A raw file, open for reading and writing. Its length is taken once, when it is opened. Short reads and writes are
/// gone on with, and those that a signal interrupts are tried again. A write that fails may have put a part of its
/// piece.
#[derive(Drop)]
pub struct FileDevice {
    file: Option<File>,
    extent: u64,
    size_faults: u64,
    faults: u64,
    called: Trail<DeviceCall>,
}

impl Model for FileDevice {
    ghost use Rattle.std.specs.Prelude.{is_some};
    ghost use Rattle.real_ends.specs.FileState.{FileState};

    ghost Value = { FileState };

    ghost view = { λ d. record {
      is_open = is_some d.file;
      extent = d.extent;
      size_faults = d.size_faults;
      faults = d.faults;
      called = d.called;
    } };
}

impl FileDevice {
    /// The file at this path. One that can't be opened, or whose length can't be taken, gives a device each of whose
    /// calls fails. Takes no memory.
    pub fn open<R: Files<File = File>>(files: &R, path: &str) -> Result<FileDevice, NoMemory>
        ensures made { IsOkAnd result (λ device. (device.size_faults ≡ 0) × (device.faults ≡ 0) × (device.called ≡ [])) }
        ensures absent { IfOk result (λ device. device.is_open ≡ false → device.extent ≡ 0) }
    {
        let (file, extent) = match open_sized(files, path) {
            Ok((file, extent)) => (Some(file), extent),
            Err(_) => (None, 0),
        };
        Ok(FileDevice {
            file,
            extent,
            size_faults: 0,
            faults: 0,
            called: Trail::empty(),
        })
    }

    /// Counts and notes a call that isn't of `size`.
    fn note(&mut self, ask: DeviceAsk, done: Result<(), Failed>) -> Result<(), Failed>
        ensures same { result ≡ done }
        ensures after { OnOk result (self.new ≡ record self.old {
          called = device_call ask false ∷ self.old.called;
        }) }
        ensures failed { OnErr result (self.new ≡ record self.old {
          faults = one_more self.old.faults;
          called = device_call ask true ∷ self.old.called;
        }) }
        ensures counted { self.old.faults ≤ self.new.faults }
        ensures cause { OnErr result (HasRisen self.old.faults self.new.faults) }
        ensures called { self.new.called ≡ device_call ask (is_err result) ∷ self.old.called }
    {
        self.called.note(&DeviceCall {
            ask,
            failed: done.is_err(),
        });
        if done.is_err() {
            self.faults = self.faults.saturating_add(1);
        }
        done
    }
}

/// The file at this path, and how many bytes it has.
fn open_sized<R: Files<File = File>>(files: &R, path: &str) -> io::Result<(File, u64)> {
    let file = OpenOptions::new().read(true).write(true).open(files, path)?;
    let extent = file.metadata()?.len();
    Ok((file, extent))
}

impl Device for FileDevice {
    ghost extent = { λ d. d.extent };

    ghost bytes = { λ _. None };

    ghost size_faults = { λ d. d.size_faults };

    ghost faults = { λ d. d.faults };

    ghost calls = { λ d. d.called };

    ghost as_many = { λ _. tt };

    fn size(&mut self) -> Result<u64, Failed>
        // It fails exactly where there is no file.
        ensures fails { is_err result ≡ not self.old.is_open }
        ensures after { OnOk result (self.new ≡ record self.old {
          called = device_call DeviceAsk.Size false ∷ self.old.called;
        }) }
        ensures failed { OnErr result (self.new ≡ record self.old {
          size_faults = one_more self.old.size_faults;
          called = device_call DeviceAsk.Size true ∷ self.old.called;
        }) }

        // What every device promises.
        ensures value { IfOk result (λ n. n ≡ self.old.extent) }
        ensures extent { self.new.extent ≡ self.old.extent }
        ensures counted { self.old.size_faults ≤ self.new.size_faults }
        ensures cause { OnErr result (HasRisen self.old.size_faults self.new.size_faults) }
        ensures others { self.new.faults ≡ self.old.faults }
        ensures called { self.new.called ≡ device_call DeviceAsk.Size (is_err result) ∷ self.old.called }
    {
        let failed = self.file.is_none();
        self.called.note(&DeviceCall {
            ask: DeviceAsk::Size,
            failed,
        });
        if failed {
            self.size_faults = self.size_faults.saturating_add(1);
            return Err(Failed);
        }
        Ok(self.extent)
    }

    fn read_at(&mut self, at: u64, buf: &mut [u8]) -> Result<(), Failed>
        requires { at + length buf.old ≤ self.old.extent }

        // It fails where there is no file.
        ensures absent { self.old.is_open ≡ false → is_err result ≡ true }
        ensures after { OnOk result (self.new ≡ record self.old {
          called = device_call (DeviceAsk.Read at (length buf.old)) false ∷ self.old.called;
        }) }
        ensures failed { OnErr result (self.new ≡ record self.old {
          faults = one_more self.old.faults;
          called = device_call (DeviceAsk.Read at (length buf.old)) true ∷ self.old.called;
        }) }

        // What every device promises.
        ensures extent { self.new.extent ≡ self.old.extent }
        ensures counted { self.old.faults ≤ self.new.faults }
        ensures cause { OnErr result (HasRisen self.old.faults self.new.faults) }
        ensures sizes { self.new.size_faults ≡ self.old.size_faults }
        ensures called { self.new.called ≡ device_call (DeviceAsk.Read at (length buf.old)) (is_err result) ∷ self.old.called }
    {
        let length = buf.len();
        let done = read_piece(&self.file, at, buf);
        self.note(DeviceAsk::Read { at, length }, done)
    }

    fn write_at(&mut self, at: u64, piece: &[u8]) -> Result<(), Failed>
        requires { at + length piece.now ≤ self.old.extent }

        // It fails where there is no file.
        ensures absent { self.old.is_open ≡ false → is_err result ≡ true }
        ensures after { OnOk result (self.new ≡ record self.old {
          called = device_call (DeviceAsk.Write at (length piece.now)) false ∷ self.old.called;
        }) }
        ensures failed { OnErr result (self.new ≡ record self.old {
          faults = one_more self.old.faults;
          called = device_call (DeviceAsk.Write at (length piece.now)) true ∷ self.old.called;
        }) }

        // What every device promises.
        ensures extent { self.new.extent ≡ self.old.extent }
        ensures counted { self.old.faults ≤ self.new.faults }
        ensures cause { OnErr result (HasRisen self.old.faults self.new.faults) }
        ensures sizes { self.new.size_faults ≡ self.old.size_faults }
        ensures called { self.new.called ≡ device_call (DeviceAsk.Write at (length piece.now)) (is_err result) ∷ self.old.called }
    {
        let length = piece.len();
        let done = write_piece(&self.file, at, piece);
        self.note(DeviceAsk::Write { at, length }, done)
    }

    fn flush(&mut self) -> Result<(), Failed>
        // It fails where there is no file.
        ensures absent { self.old.is_open ≡ false → is_err result ≡ true }
        ensures after { OnOk result (self.new ≡ record self.old {
          called = device_call DeviceAsk.Flush false ∷ self.old.called;
        }) }
        ensures failed { OnErr result (self.new ≡ record self.old {
          faults = one_more self.old.faults;
          called = device_call DeviceAsk.Flush true ∷ self.old.called;
        }) }

        // What every device promises.
        ensures extent { self.new.extent ≡ self.old.extent }
        ensures counted { self.old.faults ≤ self.new.faults }
        ensures cause { OnErr result (HasRisen self.old.faults self.new.faults) }
        ensures sizes { self.new.size_faults ≡ self.old.size_faults }
        ensures called { self.new.called ≡ device_call DeviceAsk.Flush (is_err result) ∷ self.old.called }
    {
        let done = flush_file(&self.file);
        self.note(DeviceAsk::Flush, done)
    }
}

fn read_piece(file: &Option<File>, at: u64, buf: &mut [u8]) -> Result<(), Failed>
    ensures { is_some file.now ≡ false → is_err result ≡ true }
{
    match file {
        Some(file) => done(file.read_exact_at(buf, at)),
        None => Err(Failed),
    }
}

fn write_piece(file: &Option<File>, at: u64, piece: &[u8]) -> Result<(), Failed>
    ensures { is_some file.now ≡ false → is_err result ≡ true }
{
    match file {
        Some(file) => done(file.write_all_at(piece, at)),
        None => Err(Failed),
    }
}

fn flush_file(file: &Option<File>) -> Result<(), Failed>
    ensures { is_some file.now ≡ false → is_err result ≡ true }
{
    match file {
        Some(file) => done(file.sync_data()),
        None => Err(Failed),
    }
}

/// Without the reason why it failed.
fn done(outcome: io::Result<()>) -> Result<(), Failed> {
    match outcome {
        Ok(()) => Ok(()),
        Err(_) => Err(Failed),
    }
}
