//! A put, a removal or a new value in place, with a hook.
ghost use Rattle.std.specs.Prelude.{Option, ℕ, ◌≡◌, ◌+◌, ◌<◌, ◌≤◌, ◌^◌, length, vec_len, None};
ghost use Rattle.std.specs.Prelude.{Ok, Err, OnOk, OnErr, IfOk, IfErr};
ghost use Rattle.std.specs.Arc.{arc_value};
ghost use Rattle.cap_value.specs.Memory.{MatchFault};
ghost use Rattle.cap_tree.specs.Tree.{IsOrdered, get};
ghost use Rattle.cap_tree.specs.Change.{Changes};
ghost use Rattle.cap_tree.specs.Root.{IsTop};
ghost use Rattle.cap_tree.specs.Shape.{branches, IsFit};
ghost use Rattle.cap_tree.specs.Siblings.{AreSiblings, IsRearrangement, IsReady};

use crate::child::child_index_for;
use crate::grow::raise;
use crate::hook::{Hook, ask};
use crate::leaf::search;
use crate::modify::Modify;
use crate::node::{Child, Link, MOST, Node};
use crate::rebalance::make_spare;
use crate::room::insert_in_room;
use crate::split::make_room;
use cap_value::{AllocHandle, Exact, Fault, OutOfMemory};
use std::mem;
use std::sync::Arc;

/// What becomes of a key: a value is put at it, one is made of its present one, or its entry is taken out.
pub(crate) trait Change<K: Ord + Exact + Drop, V: Exact + Drop>: Drop {
    ghost key_of: { Self → K };

    // The value that the key has afterwards, by the present one.
    ghost next_of: { Self → Option V → Option V };

    // Whether it can be made of the present one.
    ghost can_make: { Self → Option V → Type 0 };

    // How many items a node gains at most.
    ghost gain: { Self → ℕ };

    // How many items a node loses at most.
    ghost loss: { Self → ℕ };

    // Sees to it that a root node can gain an item, where the change may put one. A full node becomes the
    // only child of a new one.
    fn make_root_ready<A: AllocHandle>(
        &self,
        node: &mut Node<K, V, A>,
        alloc: A,
    ) -> Result<(), OutOfMemory>
        requires ordered { IsOrdered K.cmp node.old.entries }
        requires top { IsTop node.old }
        ensures entries { node.new.entries ≡ node.old.entries }
        ensures top { OnErr result (IsTop node.new) }
        ensures items { OnOk result (0 < node.new.height → loss self.now < node.new.items) }
        ensures room { OnOk result (node.new.items + gain self.now ≤ 16) }
        ensures fits { OnOk result (length node.new.entries + gain self.now < 2 ^ 64) };

    // Finds the child into which the key belongs, sees to it that it can gain or lose an item, and answers
    // which it is then.
    fn make_ready<A: AllocHandle>(
        &self,
        children: &mut Vec<Child<K, V, A>, A>,
        height: u64,
    ) -> Result<usize, OutOfMemory>
        requires some { loss self.now < vec_len children.old }
        requires siblings { AreSiblings K.cmp height (branches children.old.items) }
        ensures same { IsRearrangement K.cmp height (branches children.old.items)
            (branches children.new.items) }
        ensures most { vec_len children.new ≤ vec_len children.old + gain self.now }
        ensures least { vec_len children.old ≤ vec_len children.new + loss self.now }
        ensures ready { IfOk result (IsReady K.cmp (key_of self.now)
            (λ n. (n + gain self.now ≤ 16) × (4 + loss self.now ≤ n))
            (branches children.new.items)) };

    // Changes the key in a leaf. `hook` is asked once there is room for an entry more, and is shown what has
    // the key.
    fn make_in_leaf<A: AllocHandle, H: Hook<V>>(
        self,
        entries: &mut Vec<(K, V), A>,
        hook: &mut H,
    ) -> Result<Option<V>, Fault<H::Refusal>>
        requires can_make { can_make self (get K.cmp entries.old.items (key_of self)) }
        requires can_ask { H.can_ask hook.old (get K.cmp entries.old.items (key_of self))
            (next_of self (get K.cmp entries.old.items (key_of self))) }
        requires ordered { IsOrdered K.cmp entries.old.items }
        ensures changes { Changes K.cmp H.gives result entries.old.items (key_of self)
            (next_of self) entries.new.items hook.old hook.new }
        ensures most { vec_len entries.new ≤ vec_len entries.old + gain self }
        ensures least { vec_len entries.old ≤ vec_len entries.new + loss self };
}

// The value is put at the key.
#[derive(Drop)]
pub(crate) struct Put<K, V> {
    pub(crate) key: K,
    pub(crate) value: V,
}

// The entry at the key is taken out, if there is one.
#[derive(Drop)]
pub(crate) struct Take<'a, K> {
    pub(crate) key: &'a K,
}

// The value at the key, if there is one, is replaced by the one that is made of it.
#[derive(Drop)]
pub(crate) struct Edit<'a, 'b, K, M> {
    pub(crate) key: &'a K,
    pub(crate) modify: &'b M,
}

impl<K: Ord + Exact + Drop, V: Exact + Drop> Change<K, V> for Put<K, V> {
    ghost use Rattle.std.specs.Prelude.{Some};

    ghost key_of = { λ put. put.key };

    ghost next_of = { λ put present. Some put.value };

    ghost can_make = { λ put present. Unit {0} };

    ghost gain = { λ put. 1 };

    ghost loss = { λ put. 0 };

    fn make_root_ready<A: AllocHandle>(
        &self,
        node: &mut Node<K, V, A>,
        alloc: A,
    ) -> Result<(), OutOfMemory> {
        // The lengths show how many items and entries there are.
        let (items, count) = (node.len(), node.count());
        if count == usize::MAX {
            return Err(OutOfMemory);
        }
        if items == MOST {
            return raise(node, alloc);
        }
        Ok(())
    }

    fn make_ready<A: AllocHandle>(
        &self,
        children: &mut Vec<Child<K, V, A>, A>,
        height: u64,
    ) -> Result<usize, OutOfMemory> {
        let at = child_index_for(children, height, &self.key)?;
        make_room(children, height, at, &self.key)
    }

    fn make_in_leaf<A: AllocHandle, H: Hook<V>>(
        self,
        entries: &mut Vec<(K, V), A>,
        hook: &mut H,
    ) -> Result<Option<V>, Fault<H::Refusal>> {
        let Put { key, value } = self;
        match search(entries.as_slice(), &key) {
            Ok(at) => {
                ask(hook, Some(&entries[at].1), Some(&value))?;
                let (_, replaced) = mem::replace(&mut entries[at], (key, value));
                Ok(Some(replaced))
            }
            Err(at) => {
                entries.try_reserve(1)?;
                let nothing: Option<V> = None;
                ask(hook, nothing.as_ref(), Some(&value))?;
                insert_in_room(entries, at, (key, value));
                Ok(nothing)
            }
        }
    }
}

impl<'a, K: Ord + Exact + Drop, V: Exact + Drop> Change<K, V> for Take<'a, K> {
    ghost use Rattle.std.specs.Prelude.{None};

    ghost key_of = { λ take. take.key.now };

    ghost next_of = { λ take present. None };

    ghost can_make = { λ take present. Unit {0} };

    ghost gain = { λ take. 0 };

    ghost loss = { λ take. 1 };

    fn make_root_ready<A: AllocHandle>(
        &self,
        node: &mut Node<K, V, A>,
        _alloc: A,
    ) -> Result<(), OutOfMemory> {
        // The lengths show how many items and entries there are.
        let _lengths = (node.len(), node.count());
        Ok(())
    }

    fn make_ready<A: AllocHandle>(
        &self,
        children: &mut Vec<Child<K, V, A>, A>,
        height: u64,
    ) -> Result<usize, OutOfMemory> {
        let at = child_index_for(children, height, self.key)?;
        make_spare(children, height, at, self.key)
    }

    fn make_in_leaf<A: AllocHandle, H: Hook<V>>(
        self,
        entries: &mut Vec<(K, V), A>,
        hook: &mut H,
    ) -> Result<Option<V>, Fault<H::Refusal>> {
        match search(entries.as_slice(), self.key) {
            Ok(at) => {
                let nothing: Option<V> = None;
                ask(hook, Some(&entries[at].1), nothing.as_ref())?;
                let (_, removed) = entries.remove(at);
                Ok(Some(removed))
            }
            Err(_) => ask_for_none(hook),
        }
    }
}

impl<'a, 'b, K: Ord + Exact + Drop, V: Exact + Drop, M: Modify<V>> Change<K, V>
    for Edit<'a, 'b, K, M> {
    ghost use Rattle.std.specs.Option.{option_map, ForSome};

    ghost key_of = { λ edit. edit.key.now };

    ghost next_of = { λ edit present. option_map (M.modified edit.modify.now) present };

    ghost can_make = { λ edit present. ForSome present (M.can_modify edit.modify.now) };

    ghost gain = { λ edit. 0 };

    ghost loss = { λ edit. 0 };

    fn make_root_ready<A: AllocHandle>(
        &self,
        node: &mut Node<K, V, A>,
        _alloc: A,
    ) -> Result<(), OutOfMemory> {
        // The lengths show how many items and entries there are.
        let _lengths = (node.len(), node.count());
        Ok(())
    }

    fn make_ready<A: AllocHandle>(
        &self,
        children: &mut Vec<Child<K, V, A>, A>,
        height: u64,
    ) -> Result<usize, OutOfMemory> {
        child_index_for(children, height, self.key)
    }

    fn make_in_leaf<A: AllocHandle, H: Hook<V>>(
        self,
        entries: &mut Vec<(K, V), A>,
        hook: &mut H,
    ) -> Result<Option<V>, Fault<H::Refusal>> {
        let Ok(at) = search(entries.as_slice(), self.key) else {
            return ask_for_none(hook);
        };
        let present = &entries[at].1;
        let next = self.modify.modify(present)?;
        let key = self.key.clone()?;
        ask(hook, Some(present), Some(&next))?;
        let (_, replaced) = mem::replace(&mut entries[at], (key, next));
        Ok(Some(replaced))
    }
}

// Asks the hook where there is nothing to replace or to take out.
pub(crate) fn ask_for_none<V: Drop, H: Hook<V>>(
    hook: &mut H,
) -> Result<Option<V>, Fault<H::Refusal>>
    requires { H.can_ask hook.old None None }
    ensures allowed { OnOk result (H.gives hook.old None None (Ok tt) hook.new) }
    ensures refused { IfErr result (λ fault. MatchFault fault (hook.new ≡ hook.old)
        (λ why. H.gives hook.old None None (Err why) hook.new)) }
    ensures none { IfOk result (λ o. o ≡ None) }
{
    let nothing: Option<V> = None;
    ask(hook, nothing.as_ref(), nothing.as_ref())?;
    Ok(nothing)
}

// Changes the key in a node that has room for an item more, or can lose one. On the way down shared nodes are
// copied, full ones are split and underfull ones are refilled from a sibling, which keeps the entries; `hook`
// is asked at the bottom, where there is room.
#[cycle(change)]
pub(crate) fn change_in_node<
    K: Ord + Exact + Drop,
    V: Exact + Drop,
    A: AllocHandle,
    C: Change<K, V>,
    H: Hook<V>,
>(node: &mut Node<K, V, A>, change: C, hook: &mut H) -> Result<Option<V>, Fault<H::Refusal>>
    requires can_make { C.can_make change (get K.cmp node.old.entries (C.key_of change)) }
    requires can_ask { H.can_ask hook.old (get K.cmp node.old.entries (C.key_of change))
        (C.next_of change (get K.cmp node.old.entries (C.key_of change))) }
    requires ordered { IsOrdered K.cmp node.old.entries }
    requires room { node.old.items + C.gain change ≤ 16 }
    requires two { 0 < node.old.height → C.loss change < node.old.items }
    requires fits { length node.old.entries + C.gain change < 2 ^ 64 }
    ensures changes { Changes K.cmp H.gives result node.old.entries (C.key_of change)
        (C.next_of change) node.new.entries hook.old hook.new }
    ensures height { node.new.height ≡ node.old.height }
    ensures least { node.old.items ≤ node.new.items + C.loss change }
    ensures fits { length node.new.entries ≤ length node.old.entries + C.gain change }
{
    match &mut node.link {
        Link::Leaf(entries) => return change.make_in_leaf(entries, hook),
        Link::Inner(height, count, children) => {
            let at = change.make_ready(children, *height)?;
            return change_in_child(&mut children[at], count, change, hook);
        }
    }
}

// Changes the key in a child, becomes the only owner of its node first, and counts its entries anew.
#[cycle(change)]
fn change_in_child<
    K: Ord + Exact + Drop,
    V: Exact + Drop,
    A: AllocHandle,
    C: Change<K, V>,
    H: Hook<V>,
>(
    child: &mut Child<K, V, A>,
    count: &mut usize,
    change: C,
    hook: &mut H,
) -> Result<Option<V>, Fault<H::Refusal>>
    requires can_make { C.can_make change
        (get K.cmp (arc_value child.old.node).entries (C.key_of change)) }
    requires can_ask { H.can_ask hook.old (get K.cmp (arc_value child.old.node).entries (C.key_of change))
        (C.next_of change (get K.cmp (arc_value child.old.node).entries (C.key_of change))) }
    requires ordered { IsOrdered K.cmp (arc_value child.old.node).entries }
    requires fit { IsFit (arc_value child.old.node) }
    requires room { (arc_value child.old.node).items + C.gain change ≤ 16 }
    requires spare { 4 + C.loss change ≤ (arc_value child.old.node).items }
    requires counted { length (arc_value child.old.node).entries ≤ count.old }
    requires fits { count.old + C.gain change < 2 ^ 64 }
    ensures changes { Changes K.cmp H.gives result (arc_value child.old.node).entries (C.key_of change)
        (C.next_of change) (arc_value child.new.node).entries hook.old hook.new }
    ensures least { child.new.least ≡ child.old.least }
    ensures height { (arc_value child.new.node).height ≡ (arc_value child.old.node).height }
    ensures fit { IsFit (arc_value child.new.node) }
    ensures count { count.new + length (arc_value child.old.node).entries
        ≡ count.old + length (arc_value child.new.node).entries }
    ensures fits { length (arc_value child.new.node).entries
        ≤ length (arc_value child.old.node).entries + C.gain change }
{
    let subtree = Arc::make_mut(&mut child.node)?;
    let before = subtree.count();
    let answer = change_in_node(subtree, change, hook);
    *count = *count - before + subtree.count();
    // The length shows how many entries there are.
    let _length = subtree.len();
    answer
}
