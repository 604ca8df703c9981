//! A sink in memory, of whose calls some may fail.
ghost use Rattle.std.specs.Prelude.{◌≡◌, ◌≤◌, ◌++◌, [], ◌∷◌, Some, length, is_err, IfOk, OnErr, OnOk};
ghost use Rattle.aio_words.specs.Called.{write_call};
ghost use Rattle.aio_words.specs.Content.{with_piece, AppendsFront};
ghost use Rattle.aio_words.specs.Faults.{HasRisen};
ghost use Rattle.aio_words.specs.SinkState.{sink_fails};
ghost use Rattle.aio_model.specs.Counts.{one_more};

use crate::calls::{copy_of, is_listed, one_more};
use crate::{Failed, NoMemory, Sink, SinkCall, Trail};
use std::alloc::Global;
use std::marker::Model;

/// A sink in memory, with room for so many bytes. Its calls are numbered from 0, and those of given numbers fail.
#[derive(Debug, Drop)]
pub struct MemSink {
    held: Vec<u8>,
    room: usize,
    fails: Vec<u32>,
    calls: u64,
    faults: u64,
    called: Trail<SinkCall>,
}

impl Model for MemSink {
    ghost use Rattle.std.specs.Prelude.{◌≤◌, length, vec_capacity};
    ghost use Rattle.aio_words.specs.SinkState.{SinkState};

    ghost Value = { SinkState };

    ghost view = { λ s. record {
      held = s.held.items;
      room = s.room;
      fails = s.fails.items;
      calls = s.calls;
      faults = s.faults;
      called = s.called;
    } };

    ghost invariant = { λ s. (length s.held.items ≤ s.room) × (s.room ≤ vec_capacity s.held) };
}

impl MemSink {
    /// An empty sink with room for so many bytes, which fails at the calls of these numbers. All its memory is taken
    /// here.
    pub fn build(alloc: Global, room: u32, fails: &[u32]) -> Result<MemSink, NoMemory>
        ensures { IfOk result (λ sink. sink ≡ record {
          held = [];
          room = room;
          fails = fails.now;
          calls = 0;
          faults = 0;
          called = [];
        }) }
    {
        let room = room as usize;
        let Ok(held) = Vec::with_capacity(alloc, room) else {
            return Err(NoMemory);
        };
        Ok(MemSink {
            held,
            room,
            fails: copy_of(alloc, fails)?,
            calls: 0,
            faults: 0,
            called: Trail::empty(),
        })
    }

    /// What it got.
    pub fn bytes(&self) -> &[u8]
        ensures { result.now ≡ self.now.held }
    {
        self.held.as_slice()
    }
}

impl Sink for MemSink {
    ghost held = { λ s. Some s.held };

    ghost faults = { λ s. s.faults };

    ghost calls = { λ s. s.called };

    fn write(&mut self, piece: &[u8]) -> Result<(), Failed>
        // A call fails exactly where its number is listed or the piece doesn't fit whole.
        ensures fails { is_err result ≡ sink_fails self.old piece.now }
        ensures after { OnOk result (self.new ≡ record self.old {
          held = self.old.held ++ piece.now;
          calls = one_more self.old.calls;
          called = write_call (length piece.now) (is_err result) ∷ self.old.called;
        }) }
        ensures failed { OnErr result (self.new ≡ record self.old {
          calls = one_more self.old.calls;
          faults = one_more self.old.faults;
          called = write_call (length piece.now) (is_err result) ∷ self.old.called;
        }) }

        // What every sink promises.
        ensures ok { OnOk result (Some self.new.held ≡ with_piece piece.now (Some self.old.held)) }
        ensures err { OnErr result (AppendsFront (Some self.old.held) (Some self.new.held) piece.now) }
        ensures counted { self.old.faults ≤ self.new.faults }
        ensures cause { OnErr result (HasRisen self.old.faults self.new.faults) }
        ensures called { self.new.called ≡ write_call (length piece.now) (is_err result) ∷ self.old.called }
    {
        let fails = is_listed(&self.fails, self.calls) || self.room - self.held.len() < piece.len();
        self.calls = one_more(self.calls);
        let failed = fails || self.held.extend_from_slice(piece).is_err();
        self.called.note(&SinkCall {
            length: piece.len(),
            failed,
        });
        if failed {
            self.faults = one_more(self.faults);
            return Err(Failed);
        }
        Ok(())
    }
}
