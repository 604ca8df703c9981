//! The journal, with room for all that can come to stand in it.
ghost use Rattle.std.specs.Prelude.{◌≡◌, ◌<◌, ◌≤◌, ◌∷◌, [], ◌++◌, sum, length, slice_index, IfOk};

use crate::{Entry, Mark};
use std::alloc::{AllocError, Global};
use std::marker::Model;

/// The journal, and how many requests of each stream can come to stand in it. It has room for all of them.
#[derive(Drop)]
pub(crate) struct Ledger {
    requests: Vec<u32>,
    replied: Vec<u32>,
    entries: Vec<Entry>,
}

impl Model for Ledger {
    ghost use Rattle.std.specs.Prelude.{vec_capacity};
    ghost use Rattle.img_requests.specs.Soundness.{LedgerState, IsCounted};

    ghost Value = { LedgerState };

    ghost view = { λ l. record { requests = l.requests.items; entries = l.entries.items } };

    ghost invariant = { λ l. IsCounted l.requests.items l.replied.items (vec_capacity l.entries) l.entries.items };
}

impl Ledger {
    ghost use Rattle.img_requests.specs.Journal.{entry_count, entry_next};

    /// A journal without entries, for so many requests of each stream.
    pub(crate) fn build(alloc: Global, requests: &[u32]) -> Result<Ledger, AllocError>
        requires { sum requests.now ≤ 4096 }
        ensures { IfOk result (λ ledger. ledger ≡ record { requests = requests.now; entries = [] }) }
    {
        let places: u32 = requests.iter().sum();
        Ok(Ledger {
            requests: requests.to_vec(alloc)?,
            replied: vec![in alloc; 0; requests.len()]?,
            entries: Vec::with_capacity(alloc, places as usize)?,
        })
    }

    /// Puts the next entry of the stream to the journal's end, and answers its place there.
    pub(crate) fn note(&mut self, stream: u32, mark: Mark) -> u32
        requires known { stream < length self.old.requests }
        requires due { entry_count stream self.old.entries < slice_index self.old.requests stream }
        ensures place { result ≡ length self.old.entries }
        ensures entries { self.new
            ≡ record self.old { entries = self.old.entries ++ entry_next stream self.old.entries mark ∷ [] } }
    {
        let place = self.entries.len() as u32;
        let index = self.replied[stream as usize];
        self.replied[stream as usize] = index + 1;
        self.entries.push_reserved(Entry {
            stream,
            index,
            mark,
        });
        place
    }

    /// The entries, in the order of their places.
    pub(crate) fn entries(&self) -> &[Entry]
        ensures { result.now ≡ self.now.entries }
    {
        self.entries.as_slice()
    }
}
