//! The four lines of a run of the generated script.
ghost use Rattle.std.specs.Prelude.{◌≡◌, ◌++◌, ◌≤◌, OnOk, OnErr};
ghost use Rattle.aio_model.specs.Scripts.PrintedText.{end_line};
ghost use Rattle.aio_words.specs.Content.{with_piece, AppendsFront};
ghost use Rattle.aio_words.specs.Faults.{HasRisen};
ghost use Rattle.aio_script.specs.Printing.{Prints};
ghost use Rattle.script_generator.specs.Sums.{begun_line, bytes_line, gen_line, pair_text, sums_text};

use crate::Sums;
use aio_script::{WriteFault, print_numbered};
use aio_words::Sink;

/// Prints the sums of a run of the generated script. Takes no memory.
pub fn print_gen<K: Sink>(sink: &mut K, sums: &Sums) -> Result<(), WriteFault>
    ensures ok { OnOk result (K.held sink.new ≡ with_piece (sums_text sums.now) (K.held sink.old)) }
    ensures err { OnErr result (AppendsFront (K.held sink.old) (K.held sink.new) (sums_text sums.now)) }
    ensures counted { K.faults sink.old ≤ K.faults sink.new }
    ensures cause { OnErr result (HasRisen (K.faults sink.old) (K.faults sink.new)) }
{
    print_all(sink, sums)
}

fn print_all<K: Sink>(sink: &mut K, sums: &Sums) -> Result<(), WriteFault>
    ensures { Prints (sums_text sums.now) (K.held sink.old) (K.held sink.new) (K.faults sink.old) (K.faults sink.new) result }
{
    print_pair(sink, b"gen ", sums.n as u64, b" ", sums.from as u64, b"\n")?;
    print_below_gen(sink, sums)
}

fn print_below_gen<K: Sink>(sink: &mut K, sums: &Sums) -> Result<(), WriteFault>
    ensures { Prints (begun_line sums.now.begun sums.now.moved ++ (bytes_line sums.now.written sums.now.got sums.now.zeroed ++ end_line sums.now.n sums.now.errors))
        (K.held sink.old) (K.held sink.new) (K.faults sink.old) (K.faults sink.new) result }
{
    print_pair(
        sink,
        b"begun ",
        sums.begun as u64,
        b" moved ",
        sums.moved as u64,
        b"\n",
    )?;
    print_below_begun(sink, sums)
}

fn print_below_begun<K: Sink>(sink: &mut K, sums: &Sums) -> Result<(), WriteFault>
    ensures { Prints (bytes_line sums.now.written sums.now.got sums.now.zeroed ++ end_line sums.now.n sums.now.errors)
        (K.held sink.old) (K.held sink.new) (K.faults sink.old) (K.faults sink.new) result }
{
    print_bytes(sink, sums.written, sums.got, sums.zeroed)?;
    print_pair(
        sink,
        b"end ",
        sums.n as u64,
        b" ",
        sums.errors as u64,
        b"\n",
    )
}

fn print_bytes<K: Sink>(sink: &mut K, written: u64, got: u64, zeroed: u64) -> Result<(), WriteFault>
    ensures { Prints (bytes_line written got zeroed) (K.held sink.old) (K.held sink.new) (K.faults sink.old) (K.faults sink.new) result }
{
    print_pair(sink, b"bytes ", written, b" ", got, b" ")?;
    print_numbered(sink, b"", zeroed, b"\n")
}

/// Prints two numbers, with a text before, between and behind them.
fn print_pair<K: Sink>(
    sink: &mut K,
    before: &[u8],
    a: u64,
    between: &[u8],
    b: u64,
    behind: &[u8],
) -> Result<(), WriteFault>
    ensures { Prints (pair_text before.now a between.now b behind.now) (K.held sink.old) (K.held sink.new) (K.faults sink.old) (K.faults sink.new) result }
{
    print_numbered(sink, before, a, between)?;
    print_numbered(sink, b"", b, behind)
}
