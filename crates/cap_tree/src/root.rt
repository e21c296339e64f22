//! Changes of the root node in place, each with a hook.
ghost use Rattle.std.specs.Prelude.{◌≡◌, ◌+◌, ◌<◌, ◌≤◌, [], ◌^◌, length, IfOk, IfSome, IfNone, OnOk};
ghost use Rattle.std.specs.Arc.{arc_value};
ghost use Rattle.cap_tree.specs.Tree.{IsOrdered, get};
ghost use Rattle.cap_tree.specs.Change.{Changes};
ghost use Rattle.cap_tree.specs.Root.{IsTop};

use crate::change::{Change, change_in_node};
use crate::hook::Hook;
use crate::node::{Child, Link, MOST, Node};
use cap_value::{AllocHandle, Exact, Fault, OutOfMemory};
use std::sync::Arc;

// A leaf with no entry, and room for as many as it can have.
pub(crate) fn empty_leaf<K: Ord + Drop, V: Drop, A: AllocHandle>(
    alloc: A,
) -> Result<Arc<Node<K, V, A>, A>, OutOfMemory>
    ensures { IfOk result (λ node. arc_value node ≡ record { entries = []; height = 0; items = 0 }) }
{
    let entries = Vec::with_capacity(alloc, MOST)?;
    let node = Arc::new(
        alloc,
        Node {
            link: Link::Leaf(entries),
        },
    )?;
    Ok(node)
}

// The node of a child whose least key is not needed any more.
fn node_of<K: Ord + Drop, V: Drop, A: AllocHandle>(child: Child<K, V, A>) -> Arc<Node<K, V, A>, A>
    ensures { arc_value result ≡ arc_value child.node }
{
    let Child { least: _, node } = child;
    node
}

// The only child of a node that has no other, which leaves a node without children behind.
fn lone_child<K: Ord + Drop, V: Drop, A: AllocHandle>(
    node: &mut Node<K, V, A>,
) -> Option<Arc<Node<K, V, A>, A>>
    requires { 0 < node.old.height → 0 < node.old.items }
    ensures none { IfNone result (node.new ≡ node.old) }
    ensures top { IfNone result (IsTop node.new) }
    ensures subtree { IfSome result (λ n. (arc_value n).entries ≡ node.old.entries) }
    ensures child_top { IfSome result (λ n. IsTop (arc_value n)) }
{
    match &mut node.link {
        Link::Leaf(_) => return None,
        Link::Inner(_, count, children) => {
            if children.len() > 1 {
                return None;
            }
            let Some(only) = children.pop() else {
                unreachable!()
            };
            *count = 0;
            return Some(node_of(only));
        }
    }
}

// Changes the key below a root that has a node. The node is replaced by its child where only one is left.
pub(crate) fn change_in_root<
    K: Ord + Exact + Drop,
    V: Exact + Drop,
    A: AllocHandle,
    C: Change<K, V>,
    H: Hook<V>,
>(
    root: &mut Arc<Node<K, V, A>, A>,
    alloc: A,
    change: C,
    hook: &mut H,
) -> Result<Option<V>, Fault<H::Refusal>>
    requires can_make { C.can_make change (get K.cmp (arc_value root.old).entries (C.key_of change)) }
    requires can_ask { H.can_ask hook.old (get K.cmp (arc_value root.old).entries (C.key_of change))
        (C.next_of change (get K.cmp (arc_value root.old).entries (C.key_of change))) }
    requires ordered { IsOrdered K.cmp (arc_value root.old).entries }
    requires top { IsTop (arc_value root.old) }
    ensures changes { Changes K.cmp H.gives result (arc_value root.old).entries (C.key_of change)
        (C.next_of change) (arc_value root.new).entries hook.old hook.new }
    ensures top { IsTop (arc_value root.new) }
{
    let node = Arc::make_mut(root)?;
    change.make_root_ready(node, alloc)?;
    let answer = change_in_node(node, change, hook);
    match lone_child(node) {
        None => answer,
        Some(subtree) => {
            *root = subtree;
            answer
        }
    }
}
