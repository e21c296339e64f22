//! Looking a key up.
ghost use Rattle.std.specs.Prelude.{◌≡◌, ℕ, ◌-◌, [], ◌∷◌, drop, length, Some, slice_get, IfNone, IfSome};
ghost use Rattle.std.specs.Prelude.{MatchOption};
ghost use Rattle.std.specs.Option.{option_copied};
ghost use Rattle.cap_tree.specs.Tree.{IsOrdered, get};
ghost use Rattle.cap_tree.specs.Shape.{branches, place, AreChildren};

use crate::child::count_up_to;
use crate::leaf::search;
use crate::node::{Child, Link, Node};
use cap_value::AllocHandle;

// The child among whose entries the key belongs, and the children behind it. It is the first one where all
// entries are above the key, and there is none where there are no children.
#[inline]
pub(crate) fn child_for<'a, K: Ord, V, A: AllocHandle>(
    children: &'a [Child<K, V, A>],
    key: &K,
) -> Option<(&'a Child<K, V, A>, &'a [Child<K, V, A>])>
    ensures { MatchOption result (length children.now ≡ 0) (λ r. (h : ℕ)
        → AreChildren K.cmp h (branches children.now)
        → drop (place K.cmp key.now (branches children.now) - 1) children.now ≡ r.0.now ∷ r.1.now) }
{
    let (_, from) = children.split_at(count_up_to(children, key).saturating_sub(1));
    let (child, rest) = from.split_first()?;
    Some((child, rest))
}

// The value at the key.
pub(crate) fn find<'a, K: Ord, V, A: AllocHandle>(node: &'a Node<K, V, A>, key: &K) -> Option<&'a V>
    requires { IsOrdered K.cmp node.now.entries }
    ensures { option_copied result ≡ get K.cmp node.now.entries key.now }
{
    match &node.link {
        Link::Leaf(entries) => match search(entries.as_slice(), key) {
            Ok(at) => return Some(&entries[at].1),
            Err(_) => return None,
        },
        Link::Inner(_, _, children) => {
            let (child, _) = child_for(children.as_slice(), key)?;
            return find(&child.node, key);
        }
    }
}

// The last entry.
pub(crate) fn last<K: Ord, V, A: AllocHandle>(node: &Node<K, V, A>) -> Option<&(K, V)>
    ensures none { IfNone result (node.now.entries ≡ []) }
    ensures last { IfSome result (λ e.
        slice_get node.now.entries (length node.now.entries - 1) ≡ Some e.now) }
{
    match &node.link {
        Link::Leaf(entries) => return entries.as_slice().last(),
        Link::Inner(_, _, children) => {
            let (child, _) = children.as_slice().split_last()?;
            return last(&child.node);
        }
    }
}
