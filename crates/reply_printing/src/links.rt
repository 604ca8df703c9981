//! Arrays that lead through the places of each stream's replies, first to last.
ghost use Rattle.std.specs.Prelude.{◌≡◌, ◌<◌, ◌≤◌, ◌^◌, length, set, slice_index};
ghost use Rattle.aio_model.specs.declared.serving.replies.Placed.{Placed};
ghost use Rattle.reply_printing.specs.Standings.{AreOfStreamsBelow, LeadThroughAll};

use aio_model::Placed;

/// How many streams a script may have, whose numbers are below it.
pub(crate) const STREAMS: usize = 64;

/// Where each stream's next reply stands, and behind each place the same stream's next one. What stands behind a stream's
/// last reply means nothing.
#[derive(Drop)]
pub(crate) struct Links {
    pub(crate) next: [u32; STREAMS],
    pub(crate) behind: Vec<u32>,
}

impl Links {
    /// Puts a place in front of the stream's others.
    fn put_first(&mut self, stream: u32, place: u32)
        requires stream { stream < 64 }
        requires place { place < length self.old.behind.items }
        ensures next { self.new.next ≡ set self.old.next stream place }
        ensures behind { self.new.behind.items ≡ set self.old.behind.items place (slice_index self.old.next stream) }
    {
        self.behind[place as usize] = self.next[stream as usize];
        self.next[stream as usize] = place;
    }

    /// Takes the stream's next place.
    pub(crate) fn take(&mut self, stream: u32) -> u32
        requires stream { stream < 64 }
        requires place { slice_index self.old.next stream < length self.old.behind.items }
        ensures first { result ≡ slice_index self.old.next stream }
        ensures next { self.new.next ≡ set self.old.next stream (slice_index self.old.behind.items result) }
        ensures behind { self.new.behind.items ≡ self.old.behind.items }
    {
        let place = self.next[stream as usize];
        self.next[stream as usize] = self.behind[place as usize];
        place
    }

    /// Leads through the replies of each stream, in the order in which they were served.
    pub(crate) fn link(&mut self, served: &[Placed])
        requires streams { AreOfStreamsBelow 64 served.now }
        requires room { length served.now ≤ length self.old.behind.items }
        requires few { length served.now < 2 ^ 32 }
        ensures all { LeadThroughAll served.now self.new.next self.new.behind.items }
        ensures room { length self.new.behind.items ≡ length self.old.behind.items }
    {
        let mut place = served.len();
        while place > 0 {
            place -= 1;
            self.put_first(served[place].stream, place as u32);
        }
    }
}
