//! Numbers with their keys in a digital search tree. Each node has a number of its own. Below it lie, on the one side,
//! those whose bit of this depth is 0, and on the other those whose bit is 1, from the lowest bit on. Numbers on one
//! path differ in a bit that the path has not used up yet, so no path has more than 33 nodes.
ghost use Rattle.std.specs.Prelude.{◌≡◌, MatchOption, None, Some, IsSome, is_none};
ghost use Rattle.co_state.specs.Lookup.{Bare, shape, root_of, sought, inserted, popped, removed};

use std::mem;

/// A number with its key.
#[derive(Clone, Copy, Debug)]
pub(crate) struct Entry {
    pub(crate) id: u32,
    pub(crate) key: usize,
}

#[cycle(tree)]
#[derive(Drop)]
pub(crate) enum Tree {
    Empty,
    Fork(Box<Node>),
}

#[cycle(tree)]
#[derive(Drop)]
pub(crate) struct Node {
    pub(crate) entry: Entry,
    pub(crate) zero: Tree,
    pub(crate) one: Tree,
}

impl Node {
    /// A node with nothing below it.
    pub(crate) fn bare(entry: Entry) -> Node
        ensures entry { result.entry ≡ entry }
        ensures zero { shape result.zero ≡ Bare }
        ensures one { shape result.one ≡ Bare }
    {
        Node {
            entry,
            zero: Tree::Empty,
            one: Tree::Empty,
        }
    }
}

/// The key of a number.
pub(crate) fn key_of(tree: &Tree, id: u32) -> Option<usize>
    ensures { result ≡ sought (shape tree.now) id id }
{
    let mut below = tree;
    let mut rest = id;
    while let Tree::Fork(node) = below {
        if node.entry.id == id {
            return Some(node.entry.key);
        }
        below = if rest % 2 == 0 { &node.zero } else { &node.one };
        rest /= 2;
    }
    None
}

/// Puts an entry at the end of its number's path, in the box of a spare node.
pub(crate) fn insert(tree: &mut Tree, mut spare: Box<Node>, entry: Entry, rest: u32)
    ensures { shape tree.new ≡ inserted (shape tree.old) entry rest }
{
    match tree {
        Tree::Empty => {
            *spare = Node::bare(entry);
            *tree = Tree::Fork(spare);
        }
        Tree::Fork(node) => {
            if rest % 2 == 0 {
                insert(&mut node.zero, spare, entry, rest / 2);
            } else {
                insert(&mut node.one, spare, entry, rest / 2);
            }
        }
    }
}

fn is_empty(tree: &Tree) -> bool
    ensures { result ≡ is_none (root_of (shape tree.now)) }
{
    match tree {
        Tree::Empty => true,
        Tree::Fork(_) => false,
    }
}

/// Exchanges the entries of two nodes.
fn exchange(node: &mut Node, spare: &mut Node)
    ensures node { node.new ≡ record node.old { entry = spare.old.entry } }
    ensures spare { spare.new.entry ≡ node.old.entry }
{
    mem::swap(&mut node.entry, &mut spare.entry);
}

/// Takes out what stands at the root. An entry from below moves up in its place, and so on down to a node with nothing
/// below, whose box comes out.
fn pop(tree: &mut Tree) -> Option<Box<Node>>
    ensures left { shape tree.new ≡ popped (shape tree.old) }
    ensures was { MatchOption result (root_of (shape tree.old) ≡ None) (λ node. root_of (shape tree.old) ≡ Some node.value.entry) }
{
    let Tree::Fork(node) = tree else {
        return None;
    };
    if !is_empty(&node.zero) {
        let mut spare = pop(&mut node.zero)?;
        exchange(node, &mut spare);
        return Some(spare);
    }
    if !is_empty(&node.one) {
        let mut spare = pop(&mut node.one)?;
        exchange(node, &mut spare);
        return Some(spare);
    }
    match mem::replace(tree, Tree::Empty) {
        Tree::Empty => None,
        Tree::Fork(node) => Some(node),
    }
}

/// Takes a number out. The box of a node that is spare from now on comes out, where the number was there.
pub(crate) fn remove(tree: &mut Tree, id: u32, rest: u32) -> Option<Box<Node>>
    ensures left { shape tree.new ≡ removed (shape tree.old) id rest }
    ensures comes { IsSome (sought (shape tree.old) id rest) → IsSome result }
{
    match tree {
        Tree::Empty => None,
        Tree::Fork(node) => {
            if node.entry.id == id {
                pop(tree)
            } else if rest % 2 == 0 {
                remove(&mut node.zero, id, rest / 2)
            } else {
                remove(&mut node.one, id, rest / 2)
            }
        }
    }
}
