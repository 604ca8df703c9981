//! Reads a source's text to its end.
ghost use Rattle.std.specs.Prelude.{◌≡◌, ◌≤◌, ◌<◌, [], ◌∷◌, length, take, IfOk, IfErr, OnErr, IfSome, IsErrOf, true, false};
ghost use Rattle.aio_words.specs.Called.{read_call};
ghost use Rattle.aio_words.specs.Content.{TakesBytes};
ghost use Rattle.aio_words.specs.Faults.{HasRisen};
ghost use Rattle.aio_cli.specs.Calls.{Reads};
ghost use Rattle.aio_cli.specs.Reading.{IsRead, TakesAtMost, most_read};
ghost use Rattle.aio_cli.specs.declared.read.ReadFail.TheVariants.{NoMemory};

use aio_words::{Failed, Source};
use std::alloc::{AllocError, Global};

/// One byte more than a script may have.
const READ_LIMIT: usize = 1048577;

/// How many bytes one read asks for at most.
const CHUNK: usize = 4096;

/// Why a text wasn't read.
#[derive(Clone, Copy, Debug, PartialEq, Eq)]
pub(crate) enum ReadFail {
    Fault,
    NoMemory,
}

impl From<AllocError> for ReadFail {
    ghost from_gives = { λ _ e. e ≡ NoMemory };

    fn from(_: AllocError) -> Self {
        ReadFail::NoMemory
    }
}

/// Reads the next bytes into the front of the chunk, at most so many.
fn read_piece<S: Source>(source: &mut S, chunk: &mut [u8], room: usize) -> Result<usize, ReadFail>
    requires some { 0 < room }
    requires fits { room ≤ length chunk.old }
    ensures within { IfOk result (λ n. n ≤ room) }
    ensures taken { IfOk result (λ n. TakesBytes (S.left source.old) (S.left source.new) (take n chunk.new)) }
    ensures end { IfOk result (λ n. n ≡ 0 → IfSome (S.left source.old) (λ bytes. bytes ≡ [])) }
    ensures kept { OnErr result (S.left source.new ≡ S.left source.old) }
    ensures counted { S.faults source.old ≤ S.faults source.new }
    ensures fault { IfErr result (λ e. e ≡ ReadFail.Fault) }
    ensures cause { OnErr result (HasRisen (S.faults source.old) (S.faults source.new)) }
    ensures called { S.calls source.new ≡ read_call room result ∷ S.calls source.old }
{
    match source.read(&mut chunk[..room]) {
        Ok(n) => Ok(n),
        Err(Failed) => Err(ReadFail::Fault),
    }
}

/// Reads all that the source has left, but stops once more was read than a script may have.
#[tactic(auto, using(crate::proofs::Reading::no_read_yet, crate::proofs::Reading::one_read_more, crate::proofs::Reading::reads_so_far, crate::proofs::Reading::reads_to_end, crate::proofs::Reading::reads_to_fault))]
pub(crate) fn read_text<S: Source>(alloc: Global, source: &mut S) -> Result<Vec<u8>, ReadFail>
    ensures read { IfOk result (λ text. IsRead most_read (S.left source.old) (S.left source.new) text.items) }
    ensures few { TakesAtMost most_read (S.left source.old) (S.left source.new) }
    ensures counted { S.faults source.old ≤ S.faults source.new }
    ensures cause { IsErrOf result ReadFail.Fault → HasRisen (S.faults source.old) (S.faults source.new) }
    ensures read_on { (IsErrOf result ReadFail.Fault → ⊥) → Reads false (S.calls source.old) (S.calls source.new) }
    ensures read_fault { IsErrOf result ReadFail.Fault → Reads true (S.calls source.old) (S.calls source.new) }
{
    let mut text = Vec::with_capacity(alloc, READ_LIMIT)?;
    let mut chunk = [0u8; CHUNK];
    while text.len() < READ_LIMIT {
        let room = CHUNK.min(READ_LIMIT - text.len());
        let n = read_piece(source, &mut chunk, room)?;
        if n == 0 {
            return Ok(text);
        }
        text.extend_from_slice(&chunk[..n])?;
    }
    Ok(text)
}
