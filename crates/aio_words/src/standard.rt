//! The standard streams as source and sink.

// Standard input, output and error: the trusted edge. Sources and sinks over them tell nothing of the bytes that pass,
// only how many calls failed. Over a stream that tells its bytes, as one in memory may, clauses say what became of them.
ghost use Rattle.std.specs.Prelude.{◌≡◌, ◌≤◌, [], ◌∷◌, is_err, None, length, IfOk, IsOkAnd, OnErr, OnOk};
ghost use Rattle.std.specs.Io.{ReadsAtMost};
ghost use Rattle.std.specs.Io.KnownBytes.{Appends, ReadConsumes};
ghost use Rattle.aio_words.specs.Called.{read_call, write_call};
ghost use Rattle.aio_words.specs.Faults.{HasRisen};
ghost use Rattle.aio_model.specs.Counts.{one_more};

use crate::calls::one_more;
use crate::{Failed, NoMemory, Sink, SinkCall, Source, SourceCall, Trail};
use std::io;
use std::io::{ErrorKind, Read, Stderr, Stdin, Stdout, Write};
use std::marker::Model;

/// How often a read that a signal interrupts is tried before it counts as a fault.
const TRIES: u32 = 1000;

/// Standard input, or another reader. A read that a signal interrupts is tried again, up to a thousand times; any
/// other error is a fault.
#[derive(Drop)]
pub struct StdSource<R> {
    reader: R,
    faults: u64,
    called: Trail<SourceCall>,
}

impl<R> Model for StdSource<R> {
    ghost use Rattle.aio_words.specs.Over.{Over};
    ghost use Rattle.aio_words.specs.declared.called.SourceCall.{SourceCall};

    ghost Value = { Over R SourceCall };

    ghost view = { λ s. record { stream = s.reader; faults = s.faults; called = s.called } };
}

impl<R: Read> StdSource<R> {
    /// A source over this reader. Takes no memory.
    pub fn build(reader: R) -> Result<StdSource<R>, NoMemory>
        ensures { IsOkAnd result (λ source. source ≡ record { stream = reader; faults = 0; called = [] }) }
    {
        Ok(StdSource {
            reader,
            faults: 0,
            called: Trail::empty(),
        })
    }
}

impl<R: Read> Source for StdSource<R> {
    ghost left = { λ _. None };

    ghost faults = { λ s. s.faults };

    ghost calls = { λ s. s.called };

    fn read(&mut self, buf: &mut [u8]) -> Result<usize, Failed>
        ensures after { OnOk result (self.new.faults ≡ self.old.faults) }
        ensures failed { OnErr result (self.new.faults ≡ one_more self.old.faults) }
        ensures bytes { ReadConsumes (R.remaining self.old.stream) (R.remaining self.new.stream) result buf.new }

        // What every source promises.
        ensures within { IfOk result (λ n. n ≤ length buf.old) }
        ensures counted { self.old.faults ≤ self.new.faults }
        ensures cause { OnErr result (HasRisen self.old.faults self.new.faults) }
        ensures called { self.new.called ≡ read_call (length buf.old) result ∷ self.old.called }
    {
        match read_retrying(&mut self.reader, buf) {
            Ok(n) => {
                self.called.note(&SourceCall {
                    room: buf.len(),
                    got: Some(n),
                });
                Ok(n)
            }
            Err(_) => {
                self.called.note(&SourceCall {
                    room: buf.len(),
                    got: None,
                });
                self.faults = one_more(self.faults);
                Err(Failed)
            }
        }
    }
}

/// One read, tried again where a signal interrupts it.
fn read_retrying<R: Read>(reader: &mut R, buf: &mut [u8]) -> io::Result<usize>
    ensures within { ReadsAtMost result buf.new }
    ensures bytes { ReadConsumes (R.remaining reader.old) (R.remaining reader.new) result buf.new }
{
    for _ in 1..TRIES {
        match reader.read(buf) {
            Ok(n) => return Ok(n),
            Err(error) => {
                if error.kind() != ErrorKind::Interrupted {
                    return Err(error);
                }
            }
        }
    }
    reader.read(buf)
}

/// Standard output, standard error or another writer. Short writes are gone on with, and writes that a signal
/// interrupts are tried again; a write that takes nothing, and any other error, is a fault.
#[derive(Drop)]
pub struct StdSink<W> {
    writer: W,
    faults: u64,
    called: Trail<SinkCall>,
}

impl<W> Model for StdSink<W> {
    ghost use Rattle.aio_words.specs.Over.{Over};
    ghost use Rattle.aio_words.specs.declared.called.SinkCall.{SinkCall};

    ghost Value = { Over W SinkCall };

    ghost view = { λ s. record { stream = s.writer; faults = s.faults; called = s.called } };
}

impl StdSink<Stdout> {
    /// Takes no memory.
    pub fn output(stdout: Stdout) -> Result<StdSink<Stdout>, NoMemory>
        ensures { IsOkAnd result (λ sink. sink ≡ record { stream = stdout; faults = 0; called = [] }) }
    {
        Ok(StdSink::over(stdout))
    }
}

impl StdSink<Stderr> {
    /// Takes no memory.
    pub fn errors(stderr: Stderr) -> Result<StdSink<Stderr>, NoMemory>
        ensures { IsOkAnd result (λ sink. sink ≡ record { stream = stderr; faults = 0; called = [] }) }
    {
        Ok(StdSink::over(stderr))
    }
}

impl<W: Write> StdSink<W> {
    /// A sink over this writer.
    pub fn over(writer: W) -> StdSink<W>
        ensures { result ≡ record { stream = writer; faults = 0; called = [] } }
    {
        StdSink {
            writer,
            faults: 0,
            called: Trail::empty(),
        }
    }

    /// Gives the writer back, with all that was written.
    pub fn into_writer(self) -> W
        ensures { result ≡ self.stream }
    {
        self.writer
    }
}

impl<W: Write> Sink for StdSink<W> {
    ghost held = { λ _. None };

    ghost faults = { λ s. s.faults };

    ghost calls = { λ s. s.called };

    fn write(&mut self, piece: &[u8]) -> Result<(), Failed>
        ensures after { OnOk result (self.new.faults ≡ self.old.faults) }
        ensures failed { OnErr result (self.new.faults ≡ one_more self.old.faults) }
        ensures bytes { OnOk result (Appends (W.contents self.old.stream) (W.contents self.new.stream) piece.now) }

        // What every sink promises.
        ensures counted { self.old.faults ≤ self.new.faults }
        ensures cause { OnErr result (HasRisen self.old.faults self.new.faults) }
        ensures called { self.new.called ≡ write_call (length piece.now) (is_err result) ∷ self.old.called }
    {
        let written = self.writer.write_all(piece);
        self.called.note(&SinkCall {
            length: piece.len(),
            failed: written.is_err(),
        });
        match written {
            Ok(()) => Ok(()),
            Err(_) => {
                self.faults = one_more(self.faults);
                Err(Failed)
            }
        }
    }
}
