//! Arrays that lead through each stream's lines of a script.
ghost use Rattle.std.specs.Prelude.{◌≡◌, ◌<◌, IfOk, length, set, slice_index};
ghost use Rattle.img_streams.specs.Links.{LeadFrom, AreLinksOf};

use aio_model::{NoMemory, Script, Step};
use std::alloc::Global;

/// How many streams a script may have, whose ids are below it.
const STREAMS: usize = 64;

/// Where each stream's first line stands, and behind each line the same stream's next one. Where there is none, this is the
/// number of the script's lines. One pass over a script makes them, and then nobody looks for a stream's lines among all.
#[derive(Drop)]
pub struct LineLinks {
    pub(crate) first: [usize; STREAMS],
    pub(crate) next: Vec<usize>,
}

impl LineLinks {
    /// Puts a line in front of the stream's others.
    fn put_first(&mut self, stream: u32, at: usize)
        requires stream { stream < 64 }
        requires at { at < length self.old.next.items }
        ensures first { self.new.first ≡ set self.old.first stream at }
        ensures next { self.new.next.items ≡ set self.old.next.items at (slice_index self.old.first stream) }
    {
        self.next[at] = self.first[stream as usize];
        self.first[stream as usize] = at;
    }

    /// Leads through the lines, from the last to the first.
    fn link(&mut self, lines: &[Step])
        requires none { LeadFrom lines.now (length lines.now) self.old.first self.old.next.items }
        ensures all { AreLinksOf lines.now self.new }
    {
        let mut at = lines.len();
        while at > 0 {
            at -= 1;
            let stream = lines[at].stream;
            if (stream as usize) < STREAMS {
                self.put_first(stream, at);
            }
        }
    }

    /// The links of a script. They lead through the lines of the streams whose ids are below 64, which is each that a script may
    /// have.
    pub fn build(alloc: Global, script: &Script) -> Result<LineLinks, NoMemory>
        ensures { IfOk result (AreLinksOf script.now.lines) }
    {
        let lines = script.lines.as_slice();
        let none = lines.len();
        let Ok(next) = vec![in alloc; 0; none] else {
            return Err(NoMemory);
        };
        let mut links = LineLinks {
            first: [none; STREAMS],
            next,
        };
        links.link(lines);
        Ok(links)
    }

    /// Where the stream's first line stands.
    pub(crate) fn first(&self, id: u32) -> usize
        requires { id < 64 }
        ensures { result ≡ slice_index self.now.first id }
    {
        self.first[id as usize]
    }

    /// Where the next line of the stream stands whose line stands here.
    pub(crate) fn next(&self, at: usize) -> usize
        requires { at < length self.now.next.items }
        ensures { result ≡ slice_index self.now.next.items at }
    {
        self.next[at]
    }
}
