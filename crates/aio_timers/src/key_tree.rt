//! A key of each place of a row, and the least of them at hand.
ghost use Rattle.std.specs.Prelude.{◌≡◌, ◌+◌, ◌<◌, ◌≤◌, ℕ, length, slice_set, IfOk, IfSome, IfNone};
ghost use Rattle.aio_timers.specs.Keys.{key_at, HasPlace, IsHolder, none};

use std::alloc::{AllocError, Global};
use std::marker::Model;

/// The key of a place that has none. It is greater than all others.
pub(crate) const NONE: u128 = u128::MAX;

/// Keys of places. They are the leaves of a tree, each inner node of which has the lesser key of the two below it.
#[derive(Debug, Drop)]
pub(crate) struct KeyTree {
    /// The root is at 1, and the two below a node at twice its place and behind that.
    nodes: Vec<u128>,
    /// How many leaves there are. They stand at the end.
    leaves: usize,
}

impl Model for KeyTree {
    ghost use Rattle.std.specs.Prelude.{ℕ, List, drop};

    ghost Value = { List ℕ };

    ghost use Rattle.aio_timers.specs.Nodes.{IsTree};

    ghost view = { λ t. drop t.leaves t.nodes.items };

    ghost invariant = { λ t. IsTree t.nodes.items t.leaves };
}

impl KeyTree {
    pub(crate) fn build(alloc: Global, places: usize) -> Result<KeyTree, AllocError>
        requires some { 0 < places }
        requires fits { places ≤ 4294967296 }
        ensures sized { IfOk result (λ keys. length keys ≡ places) }
        ensures empty { IfOk result (λ keys. (place : ℕ) → key_at keys place ≡ none) }
    {
        let nodes = vec![in alloc; NONE; 2 * places]?;
        Ok(KeyTree {
            nodes,
            leaves: places,
        })
    }

    pub(crate) fn key(&self, place: usize) -> u128
        requires { place < length self.now }
        ensures { result ≡ key_at self.now place }
    {
        self.nodes[self.leaves + place]
    }

    pub(crate) fn set(&mut self, place: usize, key: u128)
        requires { place < length self.old }
        ensures { self.new ≡ slice_set self.old place key }
    {
        let mut node = self.leaves + place;
        self.nodes[node] = key;
        while node > 1 {
            node /= 2;
            let lesser = self.nodes[2 * node].min(self.nodes[2 * node + 1]);
            if self.nodes[node] == lesser {
                return;
            }
            self.nodes[node] = lesser;
        }
    }

    pub(crate) fn least(&self) -> u128
        ensures lower { (place : ℕ) → place < length self.now → result ≤ key_at self.now place }
        ensures held { HasPlace self.now result }
    {
        self.nodes[1]
    }

    pub(crate) fn clear(&mut self, place: usize)
        requires { place < length self.old }
        ensures { self.new ≡ slice_set self.old place none }
    {
        if self.key(place) != NONE {
            self.set(place, NONE);
        }
    }

    /// A place that has the least key.
    fn lowest(&self) -> usize
        ensures within { result < length self.now }
        ensures least { (place : ℕ) → place < length self.now → key_at self.now result ≤ key_at self.now place }
    {
        let mut node = 1;
        while node < self.leaves {
            node = if self.nodes[2 * node] == self.nodes[node] {
                2 * node
            } else {
                2 * node + 1
            };
        }
        node - self.leaves
    }

    /// The place that has the least key; `None` where no place has one.
    pub(crate) fn place_of_least(&self) -> Option<usize>
        ensures none { IfNone result ((place : ℕ) → none ≤ key_at self.now place) }
        ensures some { IfSome result (λ place. IsHolder self.now place) }
    {
        if self.least() == NONE {
            return None;
        }
        Some(self.lowest())
    }

    /// The place that has the least key, where that key is no greater than the limit; else `None`.
    pub(crate) fn place_of_least_up_to(&self, limit: u128) -> Option<usize>
        ensures none { IfNone result ((place : ℕ) → key_at self.now place < none → limit < key_at self.now place) }
        ensures some { IfSome result (λ place. IsHolder self.now place) }
        ensures up_to { IfSome result (λ place. key_at self.now place ≤ limit) }
    {
        if self.least() > limit {
            return None;
        }
        self.place_of_least()
    }

    pub(crate) fn keys(&self) -> &[u128]
        ensures { result.now ≡ self.now }
    {
        &self.nodes[self.leaves..]
    }
}
