//! Full nodes are split in two.
ghost use Rattle.std.specs.Prelude.{◌≡◌, ◌+◌, ◌<◌, ◌≤◌, vec_len, IfOk};
ghost use Rattle.cap_tree.specs.Shape.{branches};
ghost use Rattle.cap_tree.specs.Siblings.{AreSiblings, IsRearrangement, IsReady};

use crate::child::side_of;
use crate::divide::divide;
use crate::node::{Child, Link, MOST, Node};
use crate::room::insert_in_room;
use cap_value::{AllocHandle, Exact, OutOfMemory};
use std::cmp::Ordering;
use std::sync::Arc;

impl<K: Ord, V, A: AllocHandle> Node<K, V, A> {
    // Where a full node is split into which the key is to be put: near its end where the key belongs behind
    // all items, near its start where it belongs in front of all, so that rising and falling keys leave full
    // nodes behind, and else in the middle.
    pub(crate) fn cut_for(&self, key: &K) -> usize
        ensures least { 4 ≤ result }
        ensures most { result ≤ 12 }
    {
        let (first, last) = match &self.link {
            Link::Leaf(entries) => match entries.as_slice() {
                [first, .., last] => (&first.0, &last.0),
                _ => return 8,
            },
            Link::Inner(_, _, children) => match children.as_slice() {
                [first, .., last] => (&first.least, &last.least),
                _ => return 8,
            },
        };
        if key.cmp(last) == Ordering::Greater {
            return 12;
        }
        if key.cmp(first) == Ordering::Less {
            return 4;
        }
        8
    }
}

// Splits the full child at `at`, and answers which of the two the key belongs to.
fn split_child<K: Ord + Exact + Drop, V: Exact + Drop, A: AllocHandle>(
    children: &mut Vec<Child<K, V, A>, A>,
    height: u64,
    at: usize,
    cut: usize,
    key: &K,
) -> Result<usize, OutOfMemory>
    requires siblings { AreSiblings K.cmp height (branches children.old.items) }
    requires ready { IsReady K.cmp key.now (λ n. n ≡ 16) (branches children.old.items) at }
    requires front { 4 ≤ cut }
    requires back { cut ≤ 12 }
    ensures same { IsRearrangement K.cmp height (branches children.old.items) (branches children.new.items) }
    ensures not_less { vec_len children.old ≤ vec_len children.new }
    ensures one_more { vec_len children.new ≤ vec_len children.old + 1 }
    ensures ready { IfOk result (IsReady K.cmp key.now (λ n. n < 16) (branches children.new.items)) }
{
    children.try_reserve(1)?;
    let alloc = *children.allocator();
    let empty = children[at].node.empty_beside()?;
    let mut node = Arc::new(alloc, empty)?;
    let child = &mut children[at];
    let split = divide(&mut child.node, &mut node, &child.least, cut)?;
    let Some(least) = split else { unreachable!() };
    let side = side_of(key, &least, at);
    insert_in_room(children, at + 1, Child { least, node });
    Ok(side)
}

// Sees to it that the child into which the key belongs is not full, and answers which it is then.
pub(crate) fn make_room<K: Ord + Exact + Drop, V: Exact + Drop, A: AllocHandle>(
    children: &mut Vec<Child<K, V, A>, A>,
    height: u64,
    at: usize,
    key: &K,
) -> Result<usize, OutOfMemory>
    requires siblings { AreSiblings K.cmp height (branches children.old.items) }
    requires ready { IsReady K.cmp key.now (λ n. n ≤ 16) (branches children.old.items) at }
    ensures same { IsRearrangement K.cmp height (branches children.old.items) (branches children.new.items) }
    ensures not_less { vec_len children.old ≤ vec_len children.new }
    ensures one_more { vec_len children.new ≤ vec_len children.old + 1 }
    ensures ready { IfOk result (IsReady K.cmp key.now (λ n. n < 16) (branches children.new.items)) }
{
    let subtree = &children[at].node;
    if subtree.len() < MOST {
        return Ok(at);
    }
    let cut = subtree.cut_for(key);
    split_child(children, height, at, cut, key)
}
