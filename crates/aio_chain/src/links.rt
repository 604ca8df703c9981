//! A list of indices, in which each knows its neighbours.
ghost use Rattle.std.specs.Prelude.{◌≡◌, ◌≤◌, ◌<◌, ℕ, ◌+◌, ◌++◌, ◌∷◌, [], length, IfOk, IsTrue, IsFalse, if◌then◌else◌, ◌==◌};
ghost use Rattle.aio_chain.specs.LinkList.{contains, first_of, next_after, put_before, without, IsLinked};
ghost use Rattle.aio_chain.specs.Nodes.{next_of_node, prev_in, PointsAt, PutsBetween, TakesOut};

use aio_model::NoMemory;
use std::alloc::{AllocError, Global};
use std::marker::Model;

/// The neighbours of an index in the list. An index that isn't in the list has itself on both sides.
#[derive(Clone, Copy, Debug)]
struct Node {
    prev: u32,
    next: u32,
}

/// Makes the second the next of the first.
fn link(nodes: &mut [Node], first: u32, second: u32)
    requires first_in { first < length nodes.old }
    requires second_in { second < length nodes.old }
    ensures next { (k : ℕ) → next_of_node nodes.new k ≡ (if k == first then second else next_of_node nodes.old k) }
    ensures prev { (k : ℕ) → prev_in nodes.new k ≡ (if k == second then first else prev_in nodes.old k) }
{
    nodes[first as usize].next = second;
    nodes[second as usize].prev = first;
}

/// Puts an index between the one at this place and the one before it.
fn insert(nodes: &mut [Node], at: u32, i: u32)
    requires at_in { at < length nodes.old }
    requires before_in { prev_in nodes.old at < length nodes.old }
    requires i_in { i < length nodes.old }
    ensures { PutsBetween (next_of_node nodes.old) (prev_in nodes.old) (next_of_node nodes.new) (prev_in nodes.new) at i }
{
    let before = nodes[at as usize].prev;
    link(nodes, before, i);
    link(nodes, i, at);
}

/// Joins an index's neighbours, and leaves it alone.
fn remove(nodes: &mut [Node], i: u32)
    requires i_in { i < length nodes.old }
    requires before_in { prev_in nodes.old i < length nodes.old }
    requires behind_in { next_of_node nodes.old i < length nodes.old }
    ensures { TakesOut (next_of_node nodes.old) (prev_in nodes.old) (next_of_node nodes.new) (prev_in nodes.new) i }
{
    let node = nodes[i as usize];
    link(nodes, node.prev, node.next);
    link(nodes, i, i);
}

/// Nodes that are in no list, and one more, at which the list begins and ends.
fn unlinked(alloc: Global, room: u32) -> Result<Vec<Node>, AllocError>
    ensures sized { IfOk result (λ nodes. length nodes.items ≡ room + 1) }
    ensures alone { IfOk result (λ nodes. (k : ℕ) → k ≤ room → PointsAt nodes.items k k k) }
{
    let mut nodes = vec![in alloc; Node {
        prev: room,
        next: room
    }; room as usize + 1]?;
    for i in 0..room {
        nodes[i as usize] = Node { prev: i, next: i };
    }
    Ok(nodes)
}

/// A list of indices below a room, each in it at most once. Contracts see the list.
#[derive(Debug, Drop)]
pub struct Links {
    nodes: Vec<Node>,
    /// The room, and the node at which the list begins and ends.
    end: u32,
}

impl Model for Links {
    ghost use Rattle.aio_chain.specs.LinkList.{LinkList};

    ghost Value = { LinkList };

    ghost use Rattle.aio_chain.specs.Nodes.{items_in, ArePlaced};

    ghost view = { λ l. record { room = l.end; items = items_in l.nodes.items l.end } };

    ghost invariant = { λ l. ArePlaced l.nodes.items l.end };
}

impl Links {
    /// An empty list of indices below `room`. No later call takes memory.
    pub fn build(alloc: Global, room: u32) -> Result<Links, NoMemory>
        ensures empty { IfOk result (λ links. links.items ≡ []) }
        ensures room { IfOk result (λ links. links.room ≡ room) }
    {
        match unlinked(alloc, room) {
            Ok(nodes) => Ok(Links { nodes, end: room }),
            Err(AllocError) => Err(NoMemory),
        }
    }

    /// All indices of the list are below it.
    pub fn room(&self) -> u32
        ensures { result ≡ self.now.room }
    {
        self.end
    }

    /// Whether the index is in the list.
    pub fn has(&self, i: u32) -> bool
        ensures has { result ≡ contains i self.now.items }
        ensures linked { IsLinked self.now }
    {
        i < self.end && self.nodes[i as usize].next != i
    }

    pub fn first(&self) -> Option<u32>
        ensures first { result ≡ first_of self.now.items }
        ensures linked { IsLinked self.now }
    {
        self.unless_end(self.nodes[self.end as usize].next)
    }

    /// The index behind this one; `None` at the end.
    pub fn next(&self, i: u32) -> Option<u32>
        requires { IsTrue (contains i self.now.items) }
        ensures next { result ≡ next_after i self.now.items }
        ensures linked { IsLinked self.now }
    {
        self.unless_end(self.nodes[i as usize].next)
    }

    fn unless_end(&self, i: u32) -> Option<u32>
        ensures { result ≡ (if i == self.now.room then None else Some i) }
    {
        if i == self.end { None } else { Some(i) }
    }

    pub fn push_back(&mut self, i: u32)
        requires below { i < self.old.room }
        requires absent { IsFalse (contains i self.old.items) }
        ensures items { self.new.items ≡ self.old.items ++ i ∷ [] }
        ensures room { self.new.room ≡ self.old.room }
    {
        let end = self.end;
        insert(&mut self.nodes, end, i);
    }

    pub fn insert_before(&mut self, at: u32, i: u32)
        requires below { i < self.old.room }
        requires absent { IsFalse (contains i self.old.items) }
        requires present { IsTrue (contains at self.old.items) }
        ensures items { self.new.items ≡ put_before at i self.old.items }
        ensures room { self.new.room ≡ self.old.room }
    {
        insert(&mut self.nodes, at, i);
    }

    pub fn unlink(&mut self, i: u32)
        requires { IsTrue (contains i self.old.items) }
        ensures items { self.new.items ≡ without i self.old.items }
        ensures room { self.new.room ≡ self.old.room }
    {
        remove(&mut self.nodes, i);
    }
}
