//! What lines say. Each function reads one form, and answers what its definition says.
ghost use Rattle.std.specs.Prelude.{◌≡◌, ◌<◌, ◌≤◌, ◌^◌, true, IfOk};
ghost use Rattle.aio_script.specs.Image.Forms.{declare, read, write, zeroing, flush, delay, move};
ghost use Rattle.aio_script.specs.Image.Grammar.{in_number_range, has_pause, has_room, has_stream, header_at, is_known_stream, said_at, said_of, step_of, within};
ghost use Rattle.aio_script.specs.Lines.{Numbered};
ghost use Rattle.aio_script.specs.Image.Reading.{form_shown, Gives};
ghost use Rattle.aio_script.specs.Text.{data_of, number_of};

use crate::image::form::Form;
use crate::image::forms::form_of;
use crate::image::said::{Counts, Said};
use crate::refusals::{ScriptFail, ScriptRefusal};
use crate::text::{are_words, cut, is, one_word, read_number};
use aio_model::{Bytes, Request, Step, Stream, What};
use hex::FromHexError;
use std::alloc::Global;

const MOST_BYTES_OF_REQUEST: u64 = 65_536;

const MOST_REQUESTS: u64 = 4_096;

const MOST_PAUSES: u64 = 4_096;

const MOST_BYTES_MOVED: u64 = 67_108_864;

const LONGEST_DELAY: u64 = 1_000_000_000;

const LAST_STREAM: u64 = 63;

/// The number of a header line.
pub(crate) fn read_header(
    number: u32,
    line: &[u8],
    name: &str,
    least: u64,
    most: u64,
) -> Result<u64, ScriptRefusal>
    ensures { result ≡ header_at name.now least most (record { number = number; line = line.now }) }
{
    if !are_words(line) {
        return Err(ScriptRefusal::BadLine(number));
    }
    let (first, behind) = cut(line, b' ');
    if !is(first, name) {
        return Err(ScriptRefusal::NoHeader);
    }
    let Some(words) = behind else {
        return Err(ScriptRefusal::BadLine(number));
    };
    let Some(word) = one_word(words) else {
        return Err(ScriptRefusal::BadLine(number));
    };
    let value = read_counted(number, word)?;
    if least <= value && value <= most {
        Ok(value)
    } else {
        Err(ScriptRefusal::OutOfLimit(number))
    }
}

/// A line's number, and what stands above it.
#[derive(Clone, Copy, Debug)]
pub(crate) struct Above<'a> {
    pub number: u32,
    pub loops: u32,
    pub streams: &'a [Stream],
    pub counts: Counts,
}

/// What a line behind the header says.
pub(crate) fn read_line(alloc: Global, above: Above<'_>, text: &[u8]) -> Result<Said, ScriptFail>
    ensures { Gives (said_at above.entry.loops above.entry.streams.now above.entry.counts (record { number = above.entry.number; line = text.now })) result }
{
    if !are_words(text) {
        return Err(ScriptFail::Refused(ScriptRefusal::BadLine(above.number)));
    }
    let Some(form) = form_of(text) else {
        return Err(ScriptFail::Refused(ScriptRefusal::BadLine(above.number)));
    };
    read_form(alloc, above, form)
}

fn read_form(alloc: Global, above: Above<'_>, form: Form<'_>) -> Result<Said, ScriptFail>
    ensures { Gives (said_of above.entry.number above.entry.loops above.entry.streams.now above.entry.counts (form_shown form.entry)) result }
{
    let said = match form {
        Form::Write(stream, at, text) => return read_write(alloc, above, stream, at, text),
        Form::Declare(stream, home) => read_declaration(above, stream, home),
        Form::Read(stream, at, len) => read_read(above, stream, at, len),
        Form::Zero(stream, at, len) => read_zero(above, stream, at, len),
        Form::Flush(stream) => read_flush(above, stream),
        Form::Delay(stream, time) => read_delay(above, stream, time),
        Form::Move(stream, target) => read_move(above, stream, target),
    };
    Ok(said?)
}

fn read_declaration(above: Above<'_>, stream: &[u8], home: &[u8]) -> Result<Said, ScriptRefusal>
    ensures { result ≡ said_of above.entry.number above.entry.loops above.entry.streams.now above.entry.counts (declare stream.now home.now) }
{
    let id = read_counted(above.number, stream)?;
    let home = read_counted(above.number, home)?;
    if has_stream(id, above.streams) {
        return Err(ScriptRefusal::BadLine(above.number));
    }
    if id <= LAST_STREAM && home < u64::from(above.loops) {
        Ok(Said::Declares(Stream {
            id: id as u32,
            home: home as u32,
        }))
    } else {
        Err(ScriptRefusal::OutOfLimit(above.number))
    }
}

fn read_read(above: Above<'_>, stream: &[u8], at: &[u8], len: &[u8]) -> Result<Said, ScriptRefusal>
    ensures { result ≡ said_of above.entry.number above.entry.loops above.entry.streams.now above.entry.counts (read stream.now at.now len.now) }
{
    let id = read_counted(above.number, stream)?;
    let at = read_counted(above.number, at)?;
    let len = read_counted(above.number, len)?;
    if !has_room(above.counts, len, len) {
        return Err(ScriptRefusal::OutOfLimit(above.number));
    }
    let request = Request::Read {
        at,
        len: len as u32,
    };
    said_by(above, id, What::Ask(request))
}

fn read_write(
    alloc: Global,
    above: Above<'_>,
    stream: &[u8],
    at: &[u8],
    text: &[u8],
) -> Result<Said, ScriptFail>
    ensures { Gives (said_of above.entry.number above.entry.loops above.entry.streams.now above.entry.counts (write stream.now at.now text.now)) result }
{
    let id = read_counted(above.number, stream)?;
    let at = read_counted(above.number, at)?;
    let bytes = read_data(alloc, above.number, text)?;
    let len = bytes.as_slice().len() as u64;
    if !has_room(above.counts, len, len) {
        return Err(ScriptFail::Refused(ScriptRefusal::OutOfLimit(above.number)));
    }
    let said = said_by(above, id, What::Ask(Request::Write { at, bytes }))?;
    Ok(said)
}

fn read_zero(above: Above<'_>, stream: &[u8], at: &[u8], len: &[u8]) -> Result<Said, ScriptRefusal>
    ensures { result ≡ said_of above.entry.number above.entry.loops above.entry.streams.now above.entry.counts (zeroing stream.now at.now len.now) }
{
    let id = read_counted(above.number, stream)?;
    let at = read_counted(above.number, at)?;
    let len = read_counted(above.number, len)?;
    if !has_room(above.counts, len, 0) {
        return Err(ScriptRefusal::OutOfLimit(above.number));
    }
    let request = Request::Zero {
        at,
        len: len as u32,
    };
    said_by(above, id, What::Ask(request))
}

fn read_flush(above: Above<'_>, stream: &[u8]) -> Result<Said, ScriptRefusal>
    ensures { result ≡ said_of above.entry.number above.entry.loops above.entry.streams.now above.entry.counts (flush stream.now) }
{
    let id = read_counted(above.number, stream)?;
    if !has_room(above.counts, 0, 0) {
        return Err(ScriptRefusal::OutOfLimit(above.number));
    }
    said_by(above, id, What::Ask(Request::Flush))
}

fn read_delay(above: Above<'_>, stream: &[u8], time: &[u8]) -> Result<Said, ScriptRefusal>
    ensures { result ≡ said_of above.entry.number above.entry.loops above.entry.streams.now above.entry.counts (delay stream.now time.now) }
{
    let id = read_counted(above.number, stream)?;
    let time = read_counted(above.number, time)?;
    if time <= LONGEST_DELAY && above.counts.pauses < MOST_PAUSES {
        said_by(above, id, What::Delay(time))
    } else {
        Err(ScriptRefusal::OutOfLimit(above.number))
    }
}

fn read_move(above: Above<'_>, stream: &[u8], target: &[u8]) -> Result<Said, ScriptRefusal>
    ensures { result ≡ said_of above.entry.number above.entry.loops above.entry.streams.now above.entry.counts (move stream.now target.now) }
{
    let id = read_counted(above.number, stream)?;
    let target = read_counted(above.number, target)?;
    if target < u64::from(above.loops) && above.counts.pauses < MOST_PAUSES {
        said_by(above, id, What::Move(target as u32))
    } else {
        Err(ScriptRefusal::OutOfLimit(above.number))
    }
}

// ---- what several forms have

pub(crate) fn read_counted(number: u32, word: &[u8]) -> Result<u64, ScriptRefusal>
    ensures { result ≡ in_number_range number (number_of word.now) }
{
    read_number(word).ok_or(ScriptRefusal::BadNumber(number))
}

fn read_data(alloc: Global, number: u32, word: &[u8]) -> Result<Bytes, ScriptFail>
    ensures { Gives (in_number_range number (data_of word.now)) result }
{
    if is(word, "-") {
        return Ok(Bytes::of(Vec::new(alloc)));
    }
    if word.len() < 2 {
        return Err(ScriptFail::Refused(ScriptRefusal::BadNumber(number)));
    }
    match hex::decode(alloc, word) {
        Ok(bytes) => Ok(Bytes::of(bytes)),
        Err(FromHexError::OutOfMemory) => Err(ScriptFail::NoMemory),
        _ => Err(ScriptFail::Refused(ScriptRefusal::BadNumber(number))),
    }
}

fn has_stream(id: u64, streams: &[Stream]) -> bool
    ensures same { result ≡ has_stream id streams.now }
    ensures fits { result ≡ true → id < 2 ^ 32 }
{
    for stream in streams {
        if u64::from(stream.id) == id {
            return true;
        }
    }
    false
}

fn has_room(counts: Counts, len: u64, moved: u64) -> bool
    requires { moved ≤ len }
    ensures same { result ≡ has_room counts len moved }
    ensures small { result ≡ true → len ≤ 65536 }
{
    len <= MOST_BYTES_OF_REQUEST
        && counts.requests < MOST_REQUESTS
        && counts.moved <= MOST_BYTES_MOVED
        && moved <= MOST_BYTES_MOVED - counts.moved
}

// The step of a stream, if it was declared.
fn said_by(above: Above<'_>, id: u64, what: What) -> Result<Said, ScriptRefusal>
    ensures { result ≡ step_of above.entry.number above.entry.streams.now id what }
{
    if !has_stream(id, above.streams) {
        return Err(ScriptRefusal::UnknownStream(above.number));
    }
    Ok(Said::Does(Step {
        stream: id as u32,
        what,
    }))
}
