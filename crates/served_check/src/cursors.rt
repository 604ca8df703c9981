//! Which request of a script each stream is to have next.
ghost use Rattle.std.specs.Prelude.{◌≡◌, ◌+◌, ◌<◌, ◌==◌, ◌&&◌, ℕ, false, length, set, Some, IfOk, MatchOption, if◌then◌else◌};
ghost use Rattle.aio_model.specs.Serving.Asked.{asked, is_ask, request_named};
ghost use Rattle.aio_model.specs.declared.scripts.image_scripts.What.TheVariants.{Ask};
ghost use Rattle.served_check.specs.Cursors.{cursor_at, done_at, AreAt, IsAsked, CursorStands, Notes};

use aio_model::{NoMemory, Placed, Request, Step, What};
use std::alloc::Global;
use std::collections::BTreeMap;

/// How far a stream is: its next request is on this line, or there is none and this is the lines' end; and so many
/// were served.
#[derive(Clone, Copy, Debug, PartialEq, Eq)]
pub(crate) struct Cursor {
    pub line: usize,
    pub done: usize,
}

/// How far each stream is. One that isn't in the map has no request. For each line that asks a request, `next` has the
/// line of its stream's next one, or the lines' end.
#[derive(Drop)]
pub(crate) struct Cursors {
    pub next: Vec<usize>,
    pub streams: BTreeMap<u32, Cursor>,
}

/// A request, and the cursor of its stream behind it.
#[derive(Clone, Copy)]
pub(crate) struct Found<'a> {
    pub request: &'a Request,
    pub behind: Cursor,
}

impl Cursors {
    /// The cursors at the beginning of a script: its lines are gone through once, from the last to the first.
    pub fn begin(alloc: Global, lines: &[Step]) -> Result<Cursors, NoMemory>
        ensures at { IfOk result (AreAt lines.now) }
        ensures none { IfOk result (λ cursors. (stream : ℕ) → done_at cursors stream ≡ 0) }
    {
        let mut cursors = Cursors::none(alloc, lines.len())?;
        for passed in 0..lines.len() {
            let line = lines.len() - 1 - passed;
            cursors.note(line, &lines[line])?;
        }
        Ok(cursors)
    }

    fn none(alloc: Global, lines: usize) -> Result<Cursors, NoMemory>
        ensures { IfOk result (λ cursors. (length cursors.next.items ≡ lines)
            × ((stream : ℕ) → cursor_at cursors stream ≡ record { line = lines; done = 0 })) }
    {
        let Ok(next) = vec![in alloc; 0usize; lines] else {
            return Err(NoMemory);
        };
        Ok(Cursors {
            next,
            streams: BTreeMap::new(alloc),
        })
    }

    /// Notes a line that stands above all that were noted so far.
    fn note(&mut self, line: usize, step: &Step) -> Result<(), NoMemory>
        requires { line < length self.old.next.items }
        ensures { IfOk result (λ _. Notes line step.now self.old self.new) }
    {
        match &step.what {
            What::Ask(_) => self.note_ask(line, step.stream),
            What::Delay(_) => Ok(()),
            What::Move(_) => Ok(()),
        }
    }

    fn note_ask(&mut self, line: usize, stream: u32) -> Result<(), NoMemory>
        requires { line < length self.old.next.items }
        ensures next { IfOk result (λ _. self.new.next.items ≡ set self.old.next.items line (cursor_at self.old stream).line) }
        ensures cursors { IfOk result (λ _. (other : ℕ) → cursor_at self.new other ≡ (if stream == other then record { line = line; done = 0 } else cursor_at self.old other)) }
    {
        let after = self.at(stream).line;
        self.next[line] = after;
        self.set(stream, Cursor { line, done: 0 })
    }

    fn at(&self, stream: u32) -> Cursor
        ensures { result ≡ cursor_at self.now stream }
    {
        match self.streams.get(&stream) {
            Some(cursor) => *cursor,
            None => Cursor {
                line: self.next.len(),
                done: 0,
            },
        }
    }

    pub fn set(&mut self, stream: u32, cursor: Cursor) -> Result<(), NoMemory>
        ensures next { self.new.next ≡ self.old.next }
        ensures cursors { IfOk result (λ _. (other : ℕ) → cursor_at self.new other ≡ (if stream == other then cursor else cursor_at self.old other)) }
    {
        match self.streams.insert(stream, cursor) {
            Ok(_) => Ok(()),
            Err(_) => Err(NoMemory),
        }
    }

    /// The request that a reply answers, where it is the next one of its stream.
    pub fn find<'a>(&self, lines: &'a [Step], placed: &Placed) -> Option<Found<'a>>
        requires at { AreAt lines.now self.now }
        ensures { MatchOption result (IsAsked (asked lines.now) (done_at self.now) placed.now → ⊥)
            (λ found. (placed.now.index ≡ done_at self.now placed.now.stream)
            × (request_named (asked lines.now) placed.now.stream placed.now.index ≡ Some found.request.now)
            × CursorStands lines.now placed.now.stream found.behind
            × (found.behind.done ≡ placed.now.index + 1)) }
    {
        let cursor = self.at(placed.stream);
        if placed.index as usize != cursor.done {
            return None;
        }
        if cursor.line == lines.len() {
            return None;
        }
        let Some(request) = ask_of(&lines[cursor.line], placed.stream) else {
            return None;
        };
        let behind = Cursor {
            line: self.next[cursor.line],
            done: cursor.done + 1,
        };
        Some(Found { request, behind })
    }
}

/// The request of a line, where it is one of this stream.
fn ask_of(step: &Step, stream: u32) -> Option<&Request>
    ensures { MatchOption result ((step.now.stream == stream && is_ask step.now.what) ≡ false)
        (λ request. (step.now.stream ≡ stream) × (step.now.what ≡ Ask request.now)) }
{
    if step.stream != stream {
        return None;
    }
    match &step.what {
        What::Ask(request) => Some(request),
        What::Delay(_) => None,
        What::Move(_) => None,
    }
}
