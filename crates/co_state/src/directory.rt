//! Under which key each coroutine lies, by its number: a tree, and boxes that aren't in it now.
ghost use Rattle.std.specs.Prelude.{◌≡◌, ℕ, ◌+◌, ◌<◌, ◌≤◌, [], Some, None, IsSome, length, IfOk, nat_eq, if◌then◌else◌};
ghost use Rattle.co_state.specs.Lookup.{Bare, depth_of, shape, ids_in, key_in, AreListed};

use crate::tree::{Entry, Node, Tree, insert, key_of, remove};
use std::alloc::{AllocError, Global};
use std::marker::Model;

/// The numbers that are there, each with its key.
#[derive(Drop)]
pub(crate) struct Directory {
    tree: Tree,
    count: usize,
    spares: Vec<Box<Node>>,
}

impl Model for Directory {
    ghost use Rattle.std.specs.Prelude.{◌≡◌, ◌+◌, ◌≤◌, length};
    ghost use Rattle.std.specs.Vec.{vec_capacity};
    ghost use Rattle.co_state.specs.Lookup.{Table};

    ghost Value = { Table };

    ghost use Rattle.co_state.specs.contracts.tree.Tree as e;
    ghost use Rattle.std.specs.Coded.{codes};

    ghost coded = { Prim.hlevel (codes, e.the_row.coded) };

    ghost use Rattle.co_state.specs.Lookup.{IsSorted, AreSmall, shape, size_of};

    ghost view = { λ d. record { tree = d.tree; room = d.count + length d.spares.items } };

    ghost invariant = { λ d. IsSorted (λ q. q) (shape d.tree) × (d.count ≡ size_of (shape d.tree)) × (d.count + length d.spares.items ≤ vec_capacity d.spares) × AreSmall (shape d.tree) };
}

impl Directory {
    /// Memory for so many. No later call takes any.
    pub(crate) fn build(alloc: Global, room: u32) -> Result<Directory, AllocError>
        ensures empty { IfOk result (λ directory. shape directory.tree ≡ Bare) }
        ensures room { IfOk result (λ directory. directory.room ≡ room) }
    {
        let mut spares = Vec::with_capacity(alloc, room as usize)?;
        for _ in 0..room {
            let spare = Box::new(alloc, Node::bare(Entry { id: 0, key: 0 }))?;
            spares.push_reserved(spare);
        }
        Ok(Directory {
            tree: Tree::Empty,
            count: 0,
            spares,
        })
    }

    pub(crate) fn len(&self) -> usize
        ensures len { result ≡ length (ids_in (shape self.now.tree)) }
        ensures listed { AreListed (shape self.now.tree) }
    {
        self.count
    }

    /// The key of a number.
    pub(crate) fn key(&self, id: u32) -> Option<usize>
        ensures key { result ≡ key_in (shape self.now.tree) id }
        ensures shallow { depth_of (shape self.now.tree) ≤ 33 }
    {
        key_of(&self.tree, id)
    }

    pub(crate) fn insert(&mut self, id: u32, key: usize)
        requires absent { key_in (shape self.old.tree) id ≡ None }
        requires room { length (ids_in (shape self.old.tree)) < self.old.room }
        ensures keys { (q : ℕ) → key_in (shape self.new.tree) q ≡ (if nat_eq q id then Some key else key_in (shape self.old.tree) q) }
        ensures len { length (ids_in (shape self.new.tree)) ≡ length (ids_in (shape self.old.tree)) + 1 }
        ensures room { self.new.room ≡ self.old.room }
    {
        let Some(spare) = self.spares.pop() else {
            unreachable!()
        };
        insert(&mut self.tree, spare, Entry { id, key }, id);
        self.count += 1;
    }

    pub(crate) fn remove(&mut self, id: u32)
        requires there { IsSome (key_in (shape self.old.tree) id) }
        ensures keys { (q : ℕ) → key_in (shape self.new.tree) q ≡ (if nat_eq q id then None else key_in (shape self.old.tree) q) }
        ensures len { length (ids_in (shape self.new.tree)) + 1 ≡ length (ids_in (shape self.old.tree)) }
        ensures room { self.new.room ≡ self.old.room }
    {
        let Some(spare) = remove(&mut self.tree, id, id) else {
            unreachable!()
        };
        self.spares.push_reserved(spare);
        self.count -= 1;
    }
}
