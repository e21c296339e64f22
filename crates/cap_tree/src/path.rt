//! The way from the root down to a leaf, from which the entries that follow are found.
ghost use Rattle.std.specs.Prelude.{◌≡◌, ◌+◌, ◌^◌, ◌≤◌, ◌<◌, ◌∷◌, ◌++◌, [], length, drop, MatchOption};
ghost use Rattle.std.specs.BTreeMap.Range.{entries_from};
ghost use Rattle.cap_tree.specs.Tree.{IsOrdered};
ghost use Rattle.cap_tree.specs.Path.{pending, IsPath, FitInto};

use crate::child::count_of;
use crate::find::child_for;
use crate::node::{Child, Link, Node};
use arrayvec::ArrayVec;
use cap_value::AllocHandle;
use std::cmp::Ordering;

/// The most levels of inner nodes that a path has room for. No tree has as many: each node has four children,
/// but for the root, and a length has 64 binary digits.
pub(crate) const ROOM: usize = 32;

/// The children that are still to come of each inner node on the way down, the highest node first.
pub(crate) type Path<'a, K, V, A> = ArrayVec<&'a [Child<K, V, A>], ROOM>;

// How many levels there are below the node: fewer than a path has room for.
pub(crate) fn depth<K: Ord, V, A: AllocHandle>(node: &Node<K, V, A>) -> u64
    requires { 0 < node.now.height → 0 < node.now.items }
    ensures value { result ≡ node.now.height }
    ensures low { node.now.height < ROOM }
    ensures fits { length node.now.entries < 2 ^ 64 }
{
    // The count shows that the number of entries fits, and the link how many there are at least.
    let _count = node.count();
    let _link = &node.link;
    node.height()
}

// A path on which nothing is to come.
pub(crate) fn start<'a, K: Ord, V, A: AllocHandle>() -> Path<'a, K, V, A>
    ensures { result.items ≡ [] }
{
    ArrayVec::new()
}

// Goes down to the first leaf of the node, whose entries come next, and pushes what follows it.
pub(crate) fn descend<'a, K: Ord, V, A: AllocHandle>(
    path: &mut Path<'a, K, V, A>,
    node: &'a Node<K, V, A>,
) -> &'a [(K, V)]
    requires path { IsPath ROOM path.old.items }
    requires fits { length path.old.items + node.now.height ≤ ROOM }
    ensures pending { result.now ++ pending path.new.items ≡ node.now.entries ++ pending path.old.items }
    ensures path { IsPath ROOM path.new.items }
    ensures some { 0 < length node.now.entries → 0 < length result.now }
{
    match &node.link {
        Link::Leaf(entries) => return entries.as_slice(),
        Link::Inner(_, _, children) => {
            let Some((child, rest)) = children.as_slice().split_first() else {
                return &[];
            };
            path.push(rest);
            return descend(path, &child.node);
        }
    }
}

// The leaf that comes next, after which the path leads to what follows it.
pub(crate) fn next_leaf<'a, K: Ord, V, A: AllocHandle>(
    path: &mut Path<'a, K, V, A>,
) -> Option<&'a [(K, V)]>
    requires { IsPath ROOM path.old.items }
    ensures path { IsPath ROOM path.new.items }
    ensures gives { MatchOption result ((pending path.old.items ≡ []) × (pending path.new.items ≡ []))
        (λ leaf. (pending path.old.items ≡ leaf.now ++ pending path.new.items) × (0 < length leaf.now)) }
{
    while let Some(children) = path.pop() {
        if let Some((child, rest)) = children.split_first() {
            path.push(rest);
            return Some(descend(path, &child.node));
        }
    }
    None
}

// The entries from the first whose key is not below this one.
fn entries_not_below<'a, K: Ord, V>(entries: &'a [(K, V)], key: &K) -> &'a [(K, V)]
    requires { IsOrdered K.cmp entries.now }
    ensures { result.now ≡ entries_from (K.cmp key.now) entries.now }
{
    let mut rest = entries;
    while let Some((entry, others)) = rest.split_first() {
        match key.cmp(&entry.0) {
            Ordering::Greater => rest = others,
            Ordering::Less | Ordering::Equal => return rest,
        }
    }
    rest
}

// Goes down to the first entry whose key is not below this one, and pushes what follows its leaf.
pub(crate) fn seek<'a, K: Ord, V, A: AllocHandle>(
    path: &mut Path<'a, K, V, A>,
    node: &'a Node<K, V, A>,
    key: &K,
) -> &'a [(K, V)]
    requires ordered { IsOrdered K.cmp node.now.entries }
    requires path { IsPath ROOM path.old.items }
    requires fits { length path.old.items + node.now.height ≤ ROOM }
    ensures pending { result.now ++ pending path.new.items
        ≡ entries_from (K.cmp key.now) node.now.entries ++ pending path.old.items }
    ensures path { IsPath ROOM path.new.items }
{
    match &node.link {
        Link::Leaf(entries) => return entries_not_below(entries.as_slice(), key),
        Link::Inner(_, _, children) => {
            let Some((child, rest)) = child_for(children.as_slice(), key) else {
                return &[];
            };
            path.push(rest);
            return seek(path, &child.node, key);
        }
    }
}

// The number of entries that are still to come on the path.
pub(crate) fn count_of_path<K: Ord, V, A: AllocHandle>(path: &[&[Child<K, V, A>]]) -> usize
    requires fits { length (pending path.now) < 2 ^ 64 }
    ensures { result ≡ length (pending path.now) }
{
    let mut count = 0;
    for children in path {
        count += count_of(children);
    }
    count
}
