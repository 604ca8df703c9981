//! What lines of loop scripts say. Each function answers what its definition says.
ghost use Rattle.std.specs.Prelude.{◌≡◌, ◌≤◌, length};
ghost use Rattle.aio_script.specs.Loop.Forms.{on_call};
ghost use Rattle.aio_script.specs.Loop.Grammar.{act_of, acted, act_count_of, call_of, commanded, loop_header_at, loop_said_at, loop_said_of, number_below, sizes_read};
ghost use Rattle.aio_script.specs.Loop.Reading.{loop_form_shown, sizes_shown};

use crate::image::lines::read_counted;
use crate::loops::form::{LoopForm, LoopHeader, LoopSaid, SizeWords, Verb};
use crate::loops::forms::{loop_form_of, size_words};
use crate::refusals::ScriptRefusal;
use crate::text::{are_words, cut, is};
use aio_model::{Act, ActKind, Command};

const MOST_HANDLES: u64 = 64;

const MOST_LOTS: u64 = 64;

const MOST_EVENTS: u64 = 64;

const MOST_ACTS: u64 = 8;

const MOST_COMMANDS: usize = 4_096;

const TAGS: u32 = 1_000;

/// The sizes that the header line gives.
pub(crate) fn read_loop_header(number: u32, line: &[u8]) -> Result<LoopHeader, ScriptRefusal>
    ensures { result ≡ loop_header_at (record { number = number; line = line.now }) }
{
    if !are_words(line) {
        return Err(ScriptRefusal::BadLine(number));
    }
    let (first, behind) = cut(line, b' ');
    if !is(first, "loop") {
        return Err(ScriptRefusal::NoHeader);
    }
    let Some(words) = behind else {
        return Err(ScriptRefusal::BadLine(number));
    };
    let Some(sizes) = size_words(words) else {
        return Err(ScriptRefusal::BadLine(number));
    };
    read_sizes(number, sizes)
}

fn read_sizes(number: u32, words: SizeWords<'_>) -> Result<LoopHeader, ScriptRefusal>
    ensures { result ≡ sizes_read number (sizes_shown words.entry) }
{
    let handles = read_counted(number, words.handles)?;
    let lots = read_counted(number, words.lots)?;
    let events = read_counted(number, words.events)?;
    if 1 <= handles && handles <= MOST_HANDLES && lots <= MOST_LOTS && events <= MOST_EVENTS {
        Ok(LoopHeader {
            handles: handles as u32,
            lots: lots as u32,
            events: events as u32,
        })
    } else {
        Err(ScriptRefusal::OutOfLimit(number))
    }
}

/// A line's number, and what stands above it.
#[derive(Clone, Copy, Debug)]
pub(crate) struct LoopAbove<'a> {
    pub number: u32,
    pub handles: u32,
    pub events: u32,
    pub acts: &'a [Act],
    /// How many commands.
    pub asked: usize,
}

/// What a line behind the header says.
pub(crate) fn read_loop_line(above: LoopAbove<'_>, text: &[u8]) -> Result<LoopSaid, ScriptRefusal>
    ensures { result ≡ loop_said_at above.entry.handles above.entry.events above.entry.acts.now above.entry.asked (record { number = above.entry.number; line = text.now }) }
{
    if !are_words(text) {
        return Err(ScriptRefusal::BadLine(above.number));
    }
    let behind_command = above.asked > 0;
    let Some(form) = loop_form_of(behind_command, text) else {
        return Err(ScriptRefusal::BadLine(above.number));
    };
    read_loop_form(above, form)
}

fn read_loop_form(above: LoopAbove<'_>, form: LoopForm<'_>) -> Result<LoopSaid, ScriptRefusal>
    ensures { result ≡ loop_said_of above.entry.number above.entry.handles above.entry.events above.entry.acts.now above.entry.asked (loop_form_shown form.entry) }
{
    match form {
        LoopForm::OnCall(verb, handle, target) => read_on_call(above, verb, handle, target),
        LoopForm::OnNest(handle) => {
            let bh = read_below(above.number, handle, above.handles)?;
            act(above, bh, ActKind::Nest)
        }
        LoopForm::Call(verb, handle) => {
            let bh = read_below(above.number, handle, above.handles)?;
            command(above, call_of(verb, bh))
        }
        LoopForm::Once(tag) => {
            let tag = read_below(above.number, tag, TAGS)?;
            command(above, Command::Once(tag))
        }
        LoopForm::Poll => command(above, Command::Poll),
        LoopForm::Commit => command(above, Command::Commit),
        LoopForm::Set(event) => {
            let event = read_below(above.number, event, above.events)?;
            command(above, Command::Set(event))
        }
        LoopForm::Clear(event) => {
            let event = read_below(above.number, event, above.events)?;
            command(above, Command::Clear(event))
        }
    }
}

fn read_on_call(
    above: LoopAbove<'_>,
    verb: Verb,
    handle: &[u8],
    target: &[u8],
) -> Result<LoopSaid, ScriptRefusal>
    ensures { result ≡ loop_said_of above.entry.number above.entry.handles above.entry.events above.entry.acts.now above.entry.asked (on_call verb handle.now target.now) }
{
    let bh = read_counted(above.number, handle)?;
    let target = read_counted(above.number, target)?;
    if bh < u64::from(above.handles) && target < u64::from(above.handles) {
        act(above, bh as u32, act_of(verb, target as u32))
    } else {
        Err(ScriptRefusal::OutOfLimit(above.number))
    }
}

fn read_below(number: u32, word: &[u8], end: u32) -> Result<u32, ScriptRefusal>
    ensures { result ≡ number_below number end word.now }
{
    let value = read_counted(number, word)?;
    if value < u64::from(end) {
        Ok(value as u32)
    } else {
        Err(ScriptRefusal::OutOfLimit(number))
    }
}

// One action more of a callback, where there is room for it.
fn act(above: LoopAbove<'_>, bh: u32, what: ActKind) -> Result<LoopSaid, ScriptRefusal>
    ensures { result ≡ acted above.entry.number above.entry.acts.now bh what }
{
    if act_count_of(bh, above.acts) < MOST_ACTS {
        Ok(LoopSaid::Adds(Act { bh, what }))
    } else {
        Err(ScriptRefusal::OutOfLimit(above.number))
    }
}

// One command more, where there is room for it.
fn command(above: LoopAbove<'_>, command: Command) -> Result<LoopSaid, ScriptRefusal>
    ensures { result ≡ commanded above.entry.number above.entry.asked command }
{
    if above.asked < MOST_COMMANDS {
        Ok(LoopSaid::Asks(command))
    } else {
        Err(ScriptRefusal::OutOfLimit(above.number))
    }
}

// How many of the actions are a callback's.
fn act_count_of(bh: u32, acts: &[Act]) -> u64
    ensures { result ≡ act_count_of bh acts.now }
{
    let mut count = 0;
    for act in acts {
        if act.bh == bh {
            count += 1;
        }
    }
    count
}

fn act_of(verb: Verb, target: u32) -> ActKind
    ensures { result ≡ act_of verb target }
{
    match verb {
        Verb::Schedule => ActKind::Schedule(target),
        Verb::Idle => ActKind::Idle(target),
        Verb::Delete => ActKind::Delete(target),
        Verb::Cancel => ActKind::Cancel(target),
    }
}

fn call_of(verb: Verb, bh: u32) -> Command
    ensures { result ≡ call_of verb bh }
{
    match verb {
        Verb::Schedule => Command::Schedule(bh),
        Verb::Idle => Command::Idle(bh),
        Verb::Delete => Command::Delete(bh),
        Verb::Cancel => Command::Cancel(bh),
    }
}
