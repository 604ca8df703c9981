//! A source in memory, of whose calls some may fail.
ghost use Rattle.std.specs.Prelude.{◌≡◌, ◌≤◌, ◌<◌, [], ◌∷◌, Some, length, take, drop, is_err, IfOk, OnErr};
ghost use Rattle.aio_words.specs.Called.{read_call};
ghost use Rattle.aio_words.specs.Calls.{is_listed};
ghost use Rattle.aio_words.specs.Content.{TakesBytes};
ghost use Rattle.aio_words.specs.Faults.{HasRisen};
ghost use Rattle.aio_words.specs.SourceState.{count_given};
ghost use Rattle.aio_model.specs.Counts.{one_more};

use crate::calls::{copy_of, is_listed, one_more};
use crate::{Failed, NoMemory, Source, SourceCall, Trail};
use std::alloc::Global;
use std::marker::Model;

/// A source of given bytes, in memory. Its calls are numbered from 0, and those of given numbers fail.
#[derive(Debug, Drop)]
pub struct MemSource {
    bytes: Vec<u8>,
    at: usize,
    step: u32,
    fails: Vec<u32>,
    calls: u64,
    faults: u64,
    called: Trail<SourceCall>,
}

impl Model for MemSource {
    ghost use Rattle.std.specs.Prelude.{◌≤◌, ◌<◌, length, drop};
    ghost use Rattle.aio_words.specs.SourceState.{SourceState};

    ghost Value = { SourceState };

    ghost view = { λ s. record {
      left = drop s.at s.bytes.items;
      step = s.step;
      fails = s.fails.items;
      calls = s.calls;
      faults = s.faults;
      called = s.called;
    } };

    ghost invariant = { λ s. (s.at ≤ length s.bytes.items) × (0 < s.step) };
}

impl MemSource {
    /// A source of these bytes, which gives at most `step` of them at a call, and fails at the calls of these numbers.
    pub fn build(
        alloc: Global,
        bytes: &[u8],
        step: u32,
        fails: &[u32],
    ) -> Result<MemSource, NoMemory>
        requires { 1 ≤ step }
        ensures { IfOk result (λ source. source ≡ record {
          left = bytes.now;
          step = step;
          fails = fails.now;
          calls = 0;
          faults = 0;
          called = [];
        }) }
    {
        Ok(MemSource {
            bytes: copy_of(alloc, bytes)?,
            at: 0,
            step,
            fails: copy_of(alloc, fails)?,
            calls: 0,
            faults: 0,
            called: Trail::empty(),
        })
    }
}

impl Source for MemSource {
    ghost left = { λ s. Some s.left };

    ghost faults = { λ s. s.faults };

    ghost calls = { λ s. s.called };

    fn read(&mut self, buf: &mut [u8]) -> Result<usize, Failed>
        requires { 0 < length buf.old }

        // A call fails exactly where its number is listed.
        ensures fails { is_err result ≡ is_listed self.old.fails self.old.calls }
        ensures count { IfOk result (λ n. n ≡ count_given self.old (length buf.old)) }
        ensures found { IfOk result (λ n. take n buf.new ≡ take n self.old.left) }
        ensures after { IfOk result (λ n. self.new ≡ record self.old {
          left = drop n self.old.left;
          calls = one_more self.old.calls;
          called = read_call (length buf.old) result ∷ self.old.called;
        }) }
        ensures failed { OnErr result (self.new ≡ record self.old {
          calls = one_more self.old.calls;
          faults = one_more self.old.faults;
          called = read_call (length buf.old) result ∷ self.old.called;
        }) }

        // What every source promises.
        ensures within { IfOk result (λ n. n ≤ length buf.old) }
        ensures taken { IfOk result (λ n. TakesBytes (Some self.old.left) (Some self.new.left) (take n buf.new)) }
        ensures end { IfOk result (λ n. n ≡ 0 → self.old.left ≡ []) }
        ensures kept { OnErr result (self.new.left ≡ self.old.left) }
        ensures counted { self.old.faults ≤ self.new.faults }
        ensures cause { OnErr result (HasRisen self.old.faults self.new.faults) }
        ensures called { self.new.called ≡ read_call (length buf.old) result ∷ self.old.called }
    {
        let fails = is_listed(&self.fails, self.calls);
        self.calls = one_more(self.calls);
        if fails {
            self.faults = one_more(self.faults);
            self.called.note(&SourceCall {
                room: buf.len(),
                got: None,
            });
            return Err(Failed);
        }
        let left = &self.bytes[self.at..];
        let n = buf.len().min(self.step as usize).min(left.len());
        buf[..n].copy_from_slice(&left[..n]);
        self.at += n;
        self.called.note(&SourceCall {
            room: buf.len(),
            got: Some(n),
        });
        Ok(n)
    }
}
