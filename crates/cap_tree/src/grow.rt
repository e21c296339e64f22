//! A full root becomes the only child of a new root.
ghost use Rattle.std.specs.Prelude.{◌≡◌, ◌<◌, OnOk, OnErr, IfOk};
ghost use Rattle.cap_tree.specs.Shape.{NoneBelow};
ghost use Rattle.cap_tree.specs.Tree.{IsOrdered};

use crate::node::{Child, Link, MOST, Node};
use crate::path::depth;
use crate::room::insert_in_room;
use cap_value::{AllocHandle, Exact, OutOfMemory};
use std::mem;
use std::sync::Arc;

impl<K: Ord + Exact, V, A: AllocHandle> Node<K, V, A> {
    // A key that no entry is below.
    fn least(&self) -> Result<K, OutOfMemory>
        requires some { 0 < self.now.items }
        requires ordered { IsOrdered K.cmp self.now.entries }
        ensures { IfOk result (λ k. NoneBelow K.cmp k self.now.entries) }
    {
        match &self.link {
            Link::Leaf(entries) => {
                let least = entries[0].0.clone()?;
                return Ok(least);
            }
            Link::Inner(_, _, children) => {
                let least = children[0].least.clone()?;
                return Ok(least);
            }
        }
    }
}

// Makes the full root the only child of a new root.
pub(crate) fn raise<K: Ord + Exact + Drop, V: Drop, A: AllocHandle>(
    node: &mut Node<K, V, A>,
    alloc: A,
) -> Result<(), OutOfMemory>
    requires full { node.old.items ≡ 16 }
    requires ordered { IsOrdered K.cmp node.old.entries }
    ensures err { OnErr result (node.new ≡ node.old) }
    ensures entries { node.new.entries ≡ node.old.entries }
    ensures one { OnOk result (node.new.items ≡ 1) }
{
    let count = node.count();
    let height = depth(node) + 1;
    let _length = node.len();
    let least = node.least()?;
    let mut children = Vec::with_capacity(alloc, MOST)?;
    let mut below = Arc::new(alloc, Node::empty(alloc))?;
    let Some(empty) = Arc::get_mut(&mut below) else {
        return Err(OutOfMemory);
    };
    mem::swap(empty, node);
    insert_in_room(&mut children, 0, Child { least, node: below });
    let root = Node {
        link: Link::Inner(height, count, children),
    };
    *node = root;
    Ok(())
}
