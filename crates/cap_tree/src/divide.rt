//! The items of two neighbours are divided anew: so a node is split, refilled from a sibling or merged with
//! it.
ghost use Rattle.std.specs.Prelude.{◌≡◌, ◌+◌, ◌<◌, ◌≤◌, ◌^◌, [], vec_len, IfOk, OnOk, OnErr};
ghost use Rattle.std.specs.Arc.{arc_value};
ghost use Rattle.cap_tree.specs.Shape.{branches, entries_of, inner, EachBelow, NoneBelow, IsFilled, IsInner};
ghost use Rattle.cap_tree.specs.Cut.{AreNeighbours, IsShare, IsCut, merged};

use crate::child::{count_of, rename_first};
use crate::node::{Child, Link, MOST, Node};
use crate::shift::cut_items;
use cap_value::{AllocHandle, Exact, OutOfMemory};
use std::sync::Arc;

impl<K: Ord, V, A: AllocHandle> Node<K, V, A> {
    // A node of the same height with no items, and room for as many as it can have.
    pub(crate) fn empty_beside(&self) -> Result<Self, OutOfMemory>
        ensures { IfOk result
            (λ node. node ≡ record { entries = []; height = self.now.height; items = 0 }) }
    {
        match &self.link {
            Link::Leaf(entries) => {
                let none = Vec::with_capacity(*entries.allocator(), MOST)?;
                return Ok(Node {
                    link: Link::Leaf(none),
                });
            }
            Link::Inner(height, _, children) => {
                let none = Vec::with_capacity(*children.allocator(), MOST)?;
                return Ok(Node {
                    link: Link::Inner(*height, 0, none),
                });
            }
        }
    }
}

// Divides the children of two nodes anew, as `divide_items` does, and counts the entries below each.
fn divide_children<K: Ord + Exact + Drop, V: Drop, A: AllocHandle>(
    height: u64,
    front: &mut Vec<Child<K, V, A>, A>,
    count: &mut usize,
    back: &mut Vec<Child<K, V, A>, A>,
    back_count: &mut usize,
    least: &K,
    at: usize,
) -> Result<Option<K>, OutOfMemory>
    requires front { IsInner K.cmp height count.old front.old }
    requires back { IsInner K.cmp height back_count.old back.old }
    requires pair { AreNeighbours K.cmp (inner height front.old) (inner height back.old) least.now }
    requires share { IsShare at (vec_len front.old + vec_len back.old) }
    ensures front { IsInner K.cmp height count.new front.new }
    ensures back { IsInner K.cmp height back_count.new back.new }
    ensures err { OnErr result (inner height front.new ≡ inner height front.old) }
    ensures back_err { OnErr result (inner height back.new ≡ inner height back.old) }
    ensures cut { IfOk result (IsCut K.cmp at (merged (inner height front.old) (inner height back.old))
        (inner height front.new) (inner height back.new)) }
{
    rename_first(back, height, least)?;
    let next = cut_items(front, back, at)?;
    let total = *count + *back_count;
    let rest = count_of(back.as_slice());
    *count = total - rest;
    *back_count = rest;
    Ok(next)
}

// Divides the items of two nodes anew, of which the back one goes on from `least`, so that the front one has
// `at` of them. Answers from which key on the back one has the others, and None where there are no others.
fn divide_items<K: Ord + Exact + Drop, V: Drop, A: AllocHandle>(
    front: &mut Node<K, V, A>,
    back: &mut Node<K, V, A>,
    least: &K,
    at: usize,
) -> Result<Option<K>, OutOfMemory>
    requires pair { AreNeighbours K.cmp front.old back.old least.now }
    requires share { IsShare at (front.old.items + back.old.items) }
    ensures err { OnErr result (front.new ≡ front.old) }
    ensures back_err { OnErr result (back.new ≡ back.old) }
    ensures cut { IfOk result (IsCut K.cmp at (merged front.old back.old) front.new back.new) }
{
    match &mut front.link {
        Link::Leaf(entries) => match &mut back.link {
            Link::Leaf(others) => {
                let next = cut_items(entries, others, at)?;
                return Ok(next);
            }
            Link::Inner(_, _, _) => unreachable!(),
        },
        Link::Inner(height, count, children) => match &mut back.link {
            Link::Leaf(_) => unreachable!(),
            Link::Inner(_, more, others) => {
                return divide_children(*height, children, count, others, more, least, at);
            }
        },
    }
}

// Divides the items of two nodes anew, as `divide_items` does, and becomes the only owner of both first.
pub(crate) fn divide<K: Ord + Exact + Drop, V: Exact + Drop, A: AllocHandle>(
    front: &mut Arc<Node<K, V, A>, A>,
    back: &mut Arc<Node<K, V, A>, A>,
    least: &K,
    at: usize,
) -> Result<Option<K>, OutOfMemory>
    requires pair { AreNeighbours K.cmp (arc_value front.old) (arc_value back.old) least.now }
    requires share { IsShare at ((arc_value front.old).items + (arc_value back.old).items) }
    ensures err { OnErr result (arc_value front.new ≡ arc_value front.old) }
    ensures back_err { OnErr result (arc_value back.new ≡ arc_value back.old) }
    ensures cut { IfOk result (IsCut K.cmp at (merged (arc_value front.old) (arc_value back.old))
        (arc_value front.new) (arc_value back.new)) }
    ensures filled { OnOk result (IsFilled (arc_value front.new)) }
    ensures back_filled { OnOk result (IsFilled (arc_value back.new)) }
{
    let node = Arc::make_mut(front)?;
    let next = Arc::make_mut(back)?;
    let least = divide_items(node, next, least, at)?;
    // The lengths show how many entries there are.
    let _lengths = (node.len(), next.len());
    Ok(least)
}
