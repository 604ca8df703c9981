//! Replies to lines of text, on a page. Data go piece by piece. No memory is taken.
ghost use Rattle.std.specs.Prelude.{◌≡◌, ◌*◌, ◌++◌, ◌≤◌, codes, decimal, length, OnOk, OnErr};
ghost use Rattle.aio_model.specs.Scripts.PrintedText.{data_text, end_line, hex_of, line_of, outcome_of, verb_of};
ghost use Rattle.aio_words.specs.Content.{AppendsFront};
ghost use Rattle.aio_words.specs.Faults.{HasRisen};
ghost use Rattle.aio_script.specs.Printing.{PutsOnPage, HandsOver};

use crate::page::{Page, put, put_counted, put_parts};
use crate::print::WriteFault;
use aio_model::{Placed, Reply, Request};
use aio_words::Sink;
use itoa::Buffer;

/// Prints the line of a reply.
pub fn print_line<K: Sink>(
    sink: &mut K,
    page: &mut Page,
    placed: &Placed,
    place: u32,
    request: &Request,
) -> Result<(), WriteFault>
    ensures ok { OnOk result (HandsOver (page.old ++ (line_of place placed.now.stream request.now placed.now.reply)) page.new (K.held sink.old) (K.held sink.new)) }
    ensures err { OnErr result (AppendsFront (K.held sink.old) (K.held sink.new) (page.old ++ (line_of place placed.now.stream request.now placed.now.reply))) }
    ensures counted { K.faults sink.old ≤ K.faults sink.new }
    ensures cause { OnErr result (HasRisen (K.faults sink.old) (K.faults sink.new)) }
{
    print_head(sink, page, place, placed.stream, request)?;
    print_outcome(sink, page, &placed.reply)
}

/// Prints the last line: how many requests there were, and how many replies are errors.
pub fn print_end<K: Sink>(
    sink: &mut K,
    page: &mut Page,
    requests: u32,
    errors: u32,
) -> Result<(), WriteFault>
    ensures ok { OnOk result (HandsOver (page.old ++ (end_line requests errors)) page.new (K.held sink.old) (K.held sink.new)) }
    ensures err { OnErr result (AppendsFront (K.held sink.old) (K.held sink.new) (page.old ++ (end_line requests errors))) }
    ensures counted { K.faults sink.old ≤ K.faults sink.new }
    ensures cause { OnErr result (HasRisen (K.faults sink.old) (K.faults sink.new)) }
{
    let mut requests_digits = Buffer::new();
    let mut errors_digits = Buffer::new();
    put_parts(
        sink,
        page,
        &[
            b"end ",
            requests_digits.format(requests).as_bytes(),
            b" ",
            errors_digits.format(errors).as_bytes(),
            b"\n",
        ],
    )
}

// What stands before the outcome, with the space behind it.
fn print_head<K: Sink>(
    sink: &mut K,
    page: &mut Page,
    place: u32,
    stream: u32,
    request: &Request,
) -> Result<(), WriteFault>
    ensures { PutsOnPage (decimal place ++ (codes " " ++ (decimal stream ++ (codes " " ++ (verb_of request.now ++ codes " "))))) page.old page.new (K.held sink.old) (K.held sink.new) (K.faults sink.old) (K.faults sink.new) result }
{
    let mut place_digits = Buffer::new();
    let mut stream_digits = Buffer::new();
    put_parts(
        sink,
        page,
        &[
            place_digits.format(place).as_bytes(),
            b" ",
            stream_digits.format(stream).as_bytes(),
            b" ",
            verb_of(request),
            b" ",
        ],
    )
}

fn verb_of(request: &Request) -> &'static [u8]
    ensures { result.now ≡ verb_of request.now }
{
    match request {
        Request::Read { .. } => b"read",
        Request::Write { .. } => b"write",
        Request::Zero { .. } => b"zero",
        Request::Flush => b"flush",
    }
}

// The outcome, and the line's end.
fn print_outcome<K: Sink>(sink: &mut K, page: &mut Page, reply: &Reply) -> Result<(), WriteFault>
    ensures { PutsOnPage (outcome_of reply.now ++ codes "\n") page.old page.new (K.held sink.old) (K.held sink.new) (K.faults sink.old) (K.faults sink.new) result }
{
    match reply {
        Reply::Put(n) | Reply::Zeroed(n) => put_counted(sink, page, b"ok ", u64::from(*n)),
        Reply::Got(bytes) => print_found(sink, page, bytes.as_slice()),
        Reply::Flushed => put_parts(sink, page, &[b"ok\n"]),
        Reply::Eio(k) => put_counted(sink, page, b"eio ", u64::from(*k)),
        Reply::Einval => put_parts(sink, page, &[b"einval\n"]),
    }
}

fn print_found<K: Sink>(sink: &mut K, page: &mut Page, bytes: &[u8]) -> Result<(), WriteFault>
    ensures { PutsOnPage (codes "ok " ++ (data_text bytes.now ++ codes "\n")) page.old page.new (K.held sink.old) (K.held sink.new) (K.faults sink.old) (K.faults sink.new) result }
{
    if bytes.is_empty() {
        return put_parts(sink, page, &[b"ok -\n"]);
    }
    put_parts(sink, page, &[b"ok "])?;
    print_hex(sink, page, bytes)?;
    put_parts(sink, page, &[b"\n"])
}

// Data go through a buffer on the stack, piece by piece.
fn print_hex<K: Sink>(sink: &mut K, page: &mut Page, bytes: &[u8]) -> Result<(), WriteFault>
    ensures { PutsOnPage (hex_of bytes.now) page.old page.new (K.held sink.old) (K.held sink.new) (K.faults sink.old) (K.faults sink.new) result }
{
    let mut at = 0;
    while at < bytes.len() {
        let end = at + PIECE.min(bytes.len() - at);
        print_hex_piece(sink, page, &bytes[at..end])?;
        at = end;
    }
    Ok(())
}

const PIECE: usize = 256;

fn print_hex_piece<K: Sink>(sink: &mut K, page: &mut Page, piece: &[u8]) -> Result<(), WriteFault>
    requires { length piece.now ≤ PIECE }
    ensures { PutsOnPage (hex_of piece.now) page.old page.new (K.held sink.old) (K.held sink.new) (K.faults sink.old) (K.faults sink.new) result }
{
    let mut room = [0u8; 2 * PIECE];
    let digits = &mut room[..2 * piece.len()];
    write_digits(piece, digits);
    put(sink, page, digits)
}

fn write_digits(bytes: &[u8], digits: &mut [u8])
    requires { length digits.old ≡ 2 * length bytes.now }
    ensures { digits.new ≡ hex_of bytes.now }
{
    let written = hex::encode_to_slice(bytes, digits);
    prove!(written.is_ok());
}
