//! Children as their node holds them.
ghost use Rattle.std.specs.Prelude.{◌≡◌, ◌≢◌, ℕ, ◌+◌, ◌<◌, ◌≤◌, ◌^◌, ◌⊎◌, length, vec_len, IfOk, OnOk, true};
ghost use Rattle.std.specs.Arc.{arc_value};
ghost use Rattle.std.specs.List.{AllByRecursion};
ghost use Rattle.std.specs.declared.cmp.Ordering.TheVariants.{Less, Greater};
ghost use Rattle.cap_tree.specs.Siblings.{AreSiblings, IsRearrangement, IsReady};
ghost use Rattle.cap_tree.specs.Shape.{branches, entries_of, place, AreChildren, AreFit, NoneBelow};

use crate::node::{Child, MOST};
use cap_value::{AllocHandle, Exact, OutOfMemory};
use std::cmp::Ordering;
use std::sync::Arc;

// The same child once more.
fn share<K: Ord + Exact + Drop, V: Drop, A: AllocHandle>(
    child: &Child<K, V, A>,
) -> Result<Child<K, V, A>, OutOfMemory>
    ensures least { IfOk result (λ p. p.least ≡ child.now.least) }
    ensures node { IfOk result (λ p. arc_value p.node ≡ arc_value child.now.node) }
{
    Ok(Child {
        least: child.least.clone()?,
        node: Arc::try_clone(&child.node)?,
    })
}

// The same children, in a vector with room for as many as a node can have.
pub(crate) fn copy_children<K: Ord + Exact + Drop, V: Drop, A: AllocHandle>(
    children: &Vec<Child<K, V, A>, A>,
) -> Result<Vec<Child<K, V, A>, A>, OutOfMemory>
    requires { vec_len children.now ≤ 16 }
    ensures items { IfOk result (λ r. branches r.items ≡ branches children.now.items) }
    ensures len { IfOk result (λ r. vec_len r ≡ vec_len children.now) }
{
    let mut copies = Vec::with_capacity(*children.allocator(), MOST)?;
    for child in children {
        copies.push(share(child)?)?;
    }
    Ok(copies)
}

// The number of entries of the children.
pub(crate) fn count_of<K: Ord, V, A: AllocHandle>(children: &[Child<K, V, A>]) -> usize
    requires fits { length (entries_of (branches children.now)) < 2 ^ 64 }
    ensures { result ≡ length (entries_of (branches children.now)) }
{
    let mut count = 0;
    for child in children {
        count += child.node.count();
    }
    count
}

// Whether the last child is not above the key.
#[inline]
fn is_up_to_last<K: Ord, V, A: AllocHandle>(children: &[Child<K, V, A>], key: &K) -> bool
    ensures { (h : ℕ) → AreChildren K.cmp h (branches children.now) → result ≡ true
        → place K.cmp key.now (branches children.now) ≡ length children.now }
{
    let Some(last) = children.last() else {
        return true;
    };
    match key.cmp(&last.least) {
        Ordering::Less => false,
        Ordering::Equal | Ordering::Greater => true,
    }
}

// How many of the children, from the first on, are not above the key. It looks at the last one first, since
// rising keys belong there.
#[inline]
pub(crate) fn count_up_to<K: Ord, V, A: AllocHandle>(children: &[Child<K, V, A>], key: &K) -> usize
    ensures within { result ≤ length children.now }
    ensures place { (h : ℕ) → AreChildren K.cmp h (branches children.now)
        → result ≡ place K.cmp key.now (branches children.now) }
{
    if is_up_to_last(children, key) {
        return children.len();
    }
    let mut at = 0;
    while at < children.len() {
        match key.cmp(&children[at].least) {
            Ordering::Less => return at,
            Ordering::Equal | Ordering::Greater => at += 1,
        }
    }
    at
}

// The child into which the key belongs. Where all are above it, the first one's least key becomes this one.
pub(crate) fn child_index_for<K: Ord + Exact + Drop, V: Drop, A: AllocHandle>(
    children: &mut Vec<Child<K, V, A>, A>,
    height: u64,
    key: &K,
) -> Result<usize, OutOfMemory>
    requires some { 0 < vec_len children.old }
    requires siblings { AreSiblings K.cmp height (branches children.old.items) }
    ensures len { vec_len children.new ≡ vec_len children.old }
    ensures same { IsRearrangement K.cmp height (branches children.old.items) (branches children.new.items) }
    ensures ready { IfOk result (IsReady K.cmp key.now (λ n. n ≤ 16) (branches children.new.items)) }
{
    let at = count_up_to(children.as_slice(), key);
    if at == 0 {
        rename_first(children, height, key)?;
        return Ok(0);
    }
    Ok(at - 1)
}

// Gives the first child, if there is one, this least key, which none of the entries is below.
pub(crate) fn rename_first<K: Ord + Exact + Drop, V: Drop, A: AllocHandle>(
    children: &mut Vec<Child<K, V, A>, A>,
    height: u64,
    least: &K,
) -> Result<(), OutOfMemory>
    requires children { AreChildren K.cmp height (branches children.old.items) }
    requires fit { AreFit (branches children.old.items) }
    requires not_below { NoneBelow K.cmp least.now (entries_of (branches children.old.items)) }
    ensures len { vec_len children.new ≡ vec_len children.old }
    ensures same { IsRearrangement K.cmp height (branches children.old.items) (branches children.new.items) }
    ensures place { OnOk result
        (0 < vec_len children.old → place K.cmp least.now (branches children.new.items) ≡ 1) }
    ensures leasts { OnOk result
        (AllByRecursion (λ q. K.cmp least.now q.0 ≢ Greater) (branches children.new.items)) }
{
    if children.is_empty() {
        return Ok(());
    }
    let renamed = least.clone()?;
    let first = &mut children[0];
    first.least = renamed;
    Ok(())
}

// Which of two neighbours, of which the first is at `at`, the key belongs to, where `least` is the least key
// of the second.
pub(crate) fn side_of<K: Ord>(key: &K, least: &K, at: usize) -> usize
    requires { at + 1 < 2 ^ 64 }
    ensures less { K.cmp key.now least.now ≡ Less → result ≡ at }
    ensures not_less { K.cmp key.now least.now ≢ Less → result ≡ at + 1 }
    ensures either { (result ≡ at) ⊎ (result ≡ at + 1) }
{
    match key.cmp(least) {
        Ordering::Less => at,
        Ordering::Equal | Ordering::Greater => at + 1,
    }
}
