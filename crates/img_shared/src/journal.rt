//! The journal of the image.
ghost use Rattle.std.specs.Prelude.{◌≡◌, ◌<◌, ◌≤◌, ◌∷◌, [], ◌++◌, sum, length, slice_index, IfOk};

use img_requests::Mark;
use std::alloc::{AllocError, Global};
use std::marker::Model;
use std::snapshot::Snapshot;

/// What stands in the journal of a request: the one with this place among the requests of this stream, from 0. The
/// snapshots are the device before and after it. They have no bytes of their own: contracts alone see them.
pub struct Entry<D> {
    pub stream: u32,
    pub index: u32,
    pub mark: Mark,
    pub before: Snapshot<Snapshot<D>>,
    pub after: Snapshot<Snapshot<D>>,
}

impl<D> Drop for Entry<D> {
    fn drop(self) {
        let Self {
            stream: _,
            index: _,
            mark: _,
            before: _,
            after: _,
        } = self;
    }
}

/// The journal, and how many requests of each stream can come to stand in it. It has room for all of them.
#[derive(Drop)]
pub(crate) struct Ledger<D> {
    requests: Vec<u32>,
    replied: Vec<u32>,
    entries: Vec<Entry<D>>,
}

impl<D> Model for Ledger<D> {
    ghost use Rattle.std.specs.Prelude.{vec_capacity};
    ghost use Rattle.img_shared.specs.Journals.{LedgerState, IsCounted};

    ghost Value = { LedgerState D };

    ghost view = { λ l. record { requests = l.requests.items; entries = l.entries.items } };

    ghost invariant = { λ l. IsCounted l.requests.items l.replied.items (vec_capacity l.entries) l.entries.items };
}

impl<D> Ledger<D> {
    ghost use Rattle.img_shared.specs.Journals.{noted_count, entry_next};

    /// A journal without entries, for so many requests of each stream.
    pub(crate) fn build(alloc: Global, requests: &[u32]) -> Result<Ledger<D>, AllocError>
        requires { sum requests.now ≤ 4096 }
        ensures { IfOk result (λ ledger. ledger ≡ record { requests = requests.now; entries = [] }) }
    {
        let places: u32 = requests.iter().sum();
        Ok(Ledger {
            requests: requests.to_vec(alloc)?,
            replied: vec![in alloc; 0; requests.len()]?,
            entries: Vec::with_capacity(alloc, places as usize)?,
        })
    }

    /// Puts the next entry of the stream to the journal's end, and answers its place there.
    pub(crate) fn note(
        &mut self,
        stream: u32,
        mark: Mark,
        before: Snapshot<Snapshot<D>>,
        after: Snapshot<Snapshot<D>>,
    ) -> u32
        requires known { stream < length self.old.requests }
        requires due { noted_count stream self.old.entries < slice_index self.old.requests stream }
        ensures place { result ≡ length self.old.entries }
        ensures entries { self.new
            ≡ record self.old { entries = self.old.entries ++ entry_next stream self.old.entries mark before after ∷ [] } }
    {
        let place = self.entries.len() as u32;
        let index = self.replied[stream as usize];
        self.replied[stream as usize] = index + 1;
        self.entries.push_reserved(Entry {
            stream,
            index,
            mark,
            before,
            after,
        });
        place
    }

    /// The entries, in the order of their places.
    pub(crate) fn entries(&self) -> &[Entry<D>]
        ensures entries { result.now ≡ self.now.entries }
        ensures few { sum self.now.requests ≤ 4096 }
        ensures placed { length self.now.entries ≤ sum self.now.requests }
    {
        self.entries.as_slice()
    }
}
