//! Going over the entries of a tree.
ghost use Rattle.std.specs.Prelude.{◌≡◌, ◌<◌, ◌^◌, ◌++◌, [], length, IfSome};
ghost use Rattle.std.specs.Iterator.{at_most, UpTo};
ghost use Rattle.std.specs.Iterator.SizeHint.{IsWithinCount};
ghost use Rattle.std.specs.BTreeMap.Range.{entries_from};
ghost use Rattle.cap_tree.specs.Root.{root_entries, IsRoot};
ghost use Rattle.cap_tree.specs.Tree.{IsOrdered};
ghost use Rattle.std.specs.Map.Iter.{TakesFirst, deref_pair};

use crate::node::{Child, Node};
use crate::path::{Path, count_of_path, depth, descend, next_leaf, seek, start};
use cap_value::AllocHandle;
use std::iter::{ExactSizeIterator, FusedIterator};
use std::marker::Model;
use std::sync::Arc;

/// The entries of a tree that are still to come, in the order of their keys.
#[derive(Drop)]
pub struct Iter<'a, K: Ord, V, A: AllocHandle> {
    // Those of the leaf that was reached, and after them those of the path.
    leaf: &'a [(K, V)],
    path: Path<'a, K, V, A>,
}

impl<'a, K: Ord, V, A: AllocHandle> Model for Iter<'a, K, V, A> {
    ghost use Rattle.std.specs.Prelude.{◌^◌, ◌<◌, ◌++◌, List, length};

    ghost Value = { List (K × V) };

    ghost use Rattle.cap_tree.specs.Path.{pending, IsPath};

    ghost view = { λ s. s.leaf.now ++ pending s.path.items };

    ghost invariant = { λ s. IsPath 32 s.path.items
        × (length (s.leaf.now ++ pending s.path.items) < 2 ^ 64) };
}

impl<'a, K: Ord, V, A: AllocHandle> Iter<'a, K, V, A> {
    // All entries of the root.
    pub(crate) fn over(root: &'a Option<Arc<Node<K, V, A>, A>>) -> Self
        requires { IsRoot root.now }
        ensures { result ≡ root_entries root.now }
    {
        let mut path = start();
        let Some(node) = root else {
            return Iter { leaf: &[], path };
        };
        let _depth = depth(node);
        let leaf = descend(&mut path, node);
        Iter { leaf, path }
    }

    // The entries of the root from the first whose key is not below this one.
    pub(crate) fn from_key(root: &'a Option<Arc<Node<K, V, A>, A>>, key: &K) -> Self
        requires root { IsRoot root.now }
        requires ordered { IsOrdered K.cmp (root_entries root.now) }
        ensures { result ≡ entries_from (K.cmp key.now) (root_entries root.now) }
    {
        let mut path = start();
        let Some(node) = root else {
            return Iter { leaf: &[], path };
        };
        let node: &'a Node<K, V, A> = node;
        let _depth = depth(node);
        let leaf = seek(&mut path, node, key);
        Iter { leaf, path }
    }

    // The number of entries that are still to come.
    fn left(&self) -> usize
        ensures { result ≡ length self.now }
    {
        self.leaf.len() + count_of_path(self.path.as_slice())
    }
}

impl<'a, K: Ord, V, A: AllocHandle> Iterator for Iter<'a, K, V, A> {
    type Item = (&'a K, &'a V);

    ghost next_gives = { TakesFirst deref_pair };

    ghost remaining = { λ s. at_most (length s) };

    fn next(&mut self) -> Option<(&'a K, &'a V)> {
        if self.leaf.is_empty() {
            self.leaf = next_leaf(&mut self.path)?;
        }
        let Some((entry, rest)) = self.leaf.split_first() else {
            unreachable!()
        };
        self.leaf = rest;
        Some((&entry.0, &entry.1))
    }

    fn size_hint(&self) -> (usize, Option<usize>) {
        let left = self.left();
        (left, Some(left))
    }
}

impl<'a, K: Ord, V, A: AllocHandle> FusedIterator for Iter<'a, K, V, A> {}

impl<'a, K: Ord, V, A: AllocHandle> ExactSizeIterator for Iter<'a, K, V, A> {
    fn len(&self) -> usize {
        self.left()
    }
}
