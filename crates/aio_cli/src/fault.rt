//! What standard error gets of an answer.
ghost use Rattle.std.specs.Prelude.{◌≡◌, ◌≤◌, Ok, OnOk, OnErr};
ghost use Rattle.aio_words.specs.Content.{with_piece, AppendsFront};
ghost use Rattle.aio_words.specs.Faults.{HasRisen};
ghost use Rattle.aio_script.specs.Printing.{Prints};
ghost use Rattle.aio_cli.specs.Answers.{OnWritten};
ghost use Rattle.aio_cli.specs.FaultText.{fault_text, line_fault, refusal_text, sizes_text};

use crate::Answer;
use aio_script::{ScriptRefusal, WriteFault, print_numbered, print_text};
use aio_words::Sink;

/// Prints what an answer says to whoever ran the program: one line, and nothing at Done and Errors.
pub fn print_fault<K: Sink>(sink: &mut K, answer: &Answer) -> Result<(), WriteFault>
    ensures ok { OnOk result (K.held sink.new ≡ with_piece (fault_text answer.now) (K.held sink.old)) }
    ensures err { OnErr result (AppendsFront (K.held sink.old) (K.held sink.new) (fault_text answer.now)) }
    ensures counted { K.faults sink.old ≤ K.faults sink.new }
    ensures cause { OnErr result (HasRisen (K.faults sink.old) (K.faults sink.new)) }
    // Where there is nothing to print the sink isn't called.
    ensures silent { OnWritten answer.now ((sink.new ≡ sink.old) × (result ≡ Ok tt)) }
{
    match answer {
        Answer::Done | Answer::Errors(_) => Ok(()),
        Answer::Usage => print_text(
            sink,
            b"usage: aioloops [--mode=run or bh] [--gen=N] [--from=M] [--image=PATH]\n",
        ),
        Answer::BadScript(refusal) => print_refusal(sink, refusal),
        Answer::TooLong => print_text(sink, b"script: longer than 1048576 bytes\n"),
        Answer::TooLarge(image, device) => print_sizes(sink, *image, *device),
        Answer::ReadFault => print_text(sink, b"script: read fault\n"),
        Answer::WriteFault => print_text(sink, b"output: write fault\n"),
        Answer::NoMemory => print_text(sink, b"out of memory\n"),
        Answer::DeviceFault => print_text(sink, b"image: device fault\n"),
    }
}

fn print_refusal<K: Sink>(sink: &mut K, refusal: &ScriptRefusal) -> Result<(), WriteFault>
    ensures { Prints (refusal_text refusal.now) (K.held sink.old) (K.held sink.new) (K.faults sink.old) (K.faults sink.new) result }
{
    match refusal {
        ScriptRefusal::BadLine(line) => print_line_fault(sink, *line, b": bad line\n"),
        ScriptRefusal::BadNumber(line) => print_line_fault(sink, *line, b": bad number\n"),
        ScriptRefusal::OutOfLimit(line) => print_line_fault(sink, *line, b": out of limit\n"),
        ScriptRefusal::UnknownStream(line) => {
            print_line_fault(sink, *line, b": unknown stream\n")
        }
        ScriptRefusal::NoHeader => print_text(sink, b"script: no header\n"),
    }
}

fn print_line_fault<K: Sink>(sink: &mut K, line: u32, fault: &[u8]) -> Result<(), WriteFault>
    ensures { Prints (line_fault line fault.now) (K.held sink.old) (K.held sink.new) (K.faults sink.old) (K.faults sink.new) result }
{
    print_numbered(sink, b"script: line ", line as u64, fault)
}

fn print_sizes<K: Sink>(sink: &mut K, image: u64, device: u64) -> Result<(), WriteFault>
    ensures { Prints (sizes_text image device) (K.held sink.old) (K.held sink.new) (K.faults sink.old) (K.faults sink.new) result }
{
    print_numbered(sink, b"image: ", image, b" bytes asked, device has ")?;
    print_numbered(sink, b"", device, b"\n")
}
