//! Nodes.
ghost use Rattle.std.specs.Prelude.{◌≡◌, ℕ, ◌≤◌, [], length, IfOk, vec_len};
ghost use Rattle.cap_tree.specs.Shape.{IsFilled};

use crate::child::copy_children;
use cap_value::{AllocHandle, Exact, OutOfMemory};
use std::marker::Model;
use std::sync::Arc;

/// The most items of a node: entries of a leaf, children of an inner node.
pub(crate) const MOST: usize = 16;

/// The fewest items of a node that is not the root.
pub(crate) const FEWEST: usize = 4;

/// A node, seen as its entries in order, its height, which is 0 for a leaf, and the number of its own items.
#[cycle(node)]
#[derive(Drop)]
pub(crate) struct Node<K: Ord, V, A: AllocHandle> {
    pub(crate) link: Link<K, V, A>,
}

#[cycle(node)]
#[derive(Drop)]
pub(crate) enum Link<K: Ord, V, A: AllocHandle> {
    Leaf(Vec<(K, V), A>),
    // The height, the number of entries, and the children.
    Inner(u64, usize, Vec<Child<K, V, A>, A>),
}

/// A child, and a key that none of its entries is below and that each entry in front of it is below.
#[cycle(node)]
#[derive(Drop)]
pub(crate) struct Child<K: Ord, V, A: AllocHandle> {
    pub(crate) least: K,
    pub(crate) node: Arc<Node<K, V, A>, A>,
}

impl<K: Ord, V, A: AllocHandle> Model for Node<K, V, A> {
    ghost use Rattle.cap_tree.specs.Subtree.{Subtree};

    ghost Value = { Subtree K V };

    ghost use Rattle.cap_tree.specs.Shape.{shape, IsNode};

    ghost view = { λ n. shape n.link };

    ghost invariant = { λ n. IsNode K.cmp n.link };

    ghost size = { λ n. n.height };

    ghost use Rattle.cap_tree.specs.Falls.{depth_le-height};

    ghost size_decreases = { λ a h.
        depth_le-height K V A K.Ord K.PartialEq K.PartialOrd A.Allocator a.link h };
}

// The same entries, in a vector with room for as many as a leaf can have.
fn copy_entries<K: Exact + Drop, V: Exact + Drop, A: AllocHandle>(
    entries: &Vec<(K, V), A>,
) -> Result<Vec<(K, V), A>, OutOfMemory>
    requires { vec_len entries.now ≤ 16 }
    ensures items { IfOk result (λ r. r.items ≡ entries.now.items) }
    ensures len { IfOk result (λ r. vec_len r ≡ vec_len entries.now) }
{
    let mut copies = Vec::with_capacity(*entries.allocator(), MOST)?;
    for entry in entries {
        copies.push((entry.0.clone()?, entry.1.clone()?))?;
    }
    Ok(copies)
}

impl<K: Ord + Exact + Drop, V: Exact + Drop, A: AllocHandle> Clone for Node<K, V, A> {
    ghost is_clone = { λ n m. m ≡ n };

    fn clone(&self) -> Result<Self, OutOfMemory> {
        match &self.link {
            Link::Leaf(entries) => Ok(Node {
                link: Link::Leaf(copy_entries(entries)?),
            }),
            Link::Inner(height, count, children) => Ok(Node {
                link: Link::Inner(*height, *count, copy_children(children)?),
            }),
        }
    }
}

impl<K: Ord, V, A: AllocHandle> Node<K, V, A> {
    // A leaf with no entry, which takes no memory.
    pub(crate) fn empty(alloc: A) -> Self
        ensures { result ≡ record { entries = []; height = 0; items = 0 } }
    {
        Node {
            link: Link::Leaf(Vec::new(alloc)),
        }
    }

    // The allocator of its items.
    pub(crate) fn allocator(&self) -> A {
        match &self.link {
            Link::Leaf(entries) => *entries.allocator(),
            Link::Inner(_, _, children) => *children.allocator(),
        }
    }

    // How many levels there are below the node.
    pub(crate) fn height(&self) -> u64
        ensures { result ≡ self.now.height }
    {
        match &self.link {
            Link::Leaf(_) => 0,
            Link::Inner(height, _, _) => *height,
        }
    }

    // The number of entries.
    pub(crate) fn count(&self) -> usize
        ensures { result ≡ length self.now.entries }
    {
        match &self.link {
            Link::Leaf(entries) => entries.len(),
            Link::Inner(_, count, _) => *count,
        }
    }

    // The number of items of the node itself.
    pub(crate) fn len(&self) -> usize
        ensures value { result ≡ self.now.items }
        ensures most { result ≤ 16 }
        ensures filled { IsFilled self.now }
    {
        match &self.link {
            Link::Leaf(entries) => entries.len(),
            Link::Inner(_, _, children) => children.len(),
        }
    }
}
