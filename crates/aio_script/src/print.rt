//! Texts printed at once. What is short is put together on the stack, so that it is one call of the sink. No memory is
//! taken.
ghost use Rattle.std.specs.Prelude.{◌≡◌, ◌++◌, ◌<◌, ◌≤◌, decimal, length, OnOk, OnErr, MatchOption};
ghost use Rattle.std.specs.List.{flat_map};
ghost use Rattle.aio_words.specs.Content.{with_piece, AppendsFront};
ghost use Rattle.aio_words.specs.Faults.{HasRisen};
ghost use Rattle.aio_script.specs.Printing.{Prints};

use aio_words::{Failed, Sink};
use arrayvec::ArrayVec;
use itoa::Buffer;

/// The sink failed before a text was printed whole. A front of it may have reached the sink.
#[derive(Clone, Copy, Debug, PartialEq, Eq)]
pub struct WriteFault;

/// Prints a text as it is.
pub fn print_text<K: Sink>(sink: &mut K, text: &[u8]) -> Result<(), WriteFault>
    ensures ok { OnOk result (K.held sink.new ≡ with_piece text.now (K.held sink.old)) }
    ensures err { OnErr result (AppendsFront (K.held sink.old) (K.held sink.new) text.now) }
    ensures counted { K.faults sink.old ≤ K.faults sink.new }
    ensures cause { OnErr result (HasRisen (K.faults sink.old) (K.faults sink.new)) }
{
    print_piece(sink, text)
}

/// Prints a number in decimal digits, with a text before it and one behind it.
pub fn print_numbered<K: Sink>(
    sink: &mut K,
    before: &[u8],
    n: u64,
    behind: &[u8],
) -> Result<(), WriteFault>
    ensures ok { OnOk result (K.held sink.new ≡ with_piece (before.now ++ (decimal n ++ behind.now)) (K.held sink.old)) }
    ensures err { OnErr result (AppendsFront (K.held sink.old) (K.held sink.new) (before.now ++ (decimal n ++ behind.now))) }
    ensures counted { K.faults sink.old ≤ K.faults sink.new }
    ensures cause { OnErr result (HasRisen (K.faults sink.old) (K.faults sink.new)) }
{
    let mut digits = Buffer::new();
    print_parts(sink, &[before, digits.format(n).as_bytes(), behind])
}

/// How long a text may be that is put together, so that its parts are one call of the sink.
const PACKED: usize = 128;

fn print_parts<K: Sink>(sink: &mut K, parts: &[&[u8]]) -> Result<(), WriteFault>
    ensures { Prints (flat_map (λ part. part.now) parts.now) (K.held sink.old) (K.held sink.new) (K.faults sink.old) (K.faults sink.new) result }
{
    match pack(parts) {
        Some(text) => print_piece(sink, text.as_slice()),
        None => print_each(sink, parts),
    }
}

// The parts one behind the other. None exactly where there is no room for them.
fn pack(parts: &[&[u8]]) -> Option<ArrayVec<u8, PACKED>>
    ensures { MatchOption result (PACKED < length (flat_map (λ part. part.now) parts.now)) (λ text. text.items ≡ flat_map (λ part. part.now) parts.now) }
{
    let mut text = ArrayVec::new();
    for part in parts {
        if text.try_extend_from_slice(part).is_err() {
            return None;
        }
    }
    Some(text)
}

fn print_each<K: Sink>(sink: &mut K, parts: &[&[u8]]) -> Result<(), WriteFault>
    ensures { Prints (flat_map (λ part. part.now) parts.now) (K.held sink.old) (K.held sink.new) (K.faults sink.old) (K.faults sink.new) result }
{
    for part in parts {
        print_piece(sink, part)?;
    }
    Ok(())
}

pub(crate) fn print_piece<K: Sink>(sink: &mut K, piece: &[u8]) -> Result<(), WriteFault>
    ensures { Prints piece.now (K.held sink.old) (K.held sink.new) (K.faults sink.old) (K.faults sink.new) result }
{
    match sink.write(piece) {
        Ok(()) => Ok(()),
        Err(Failed) => Err(WriteFault),
    }
}
