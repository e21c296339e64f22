//! The tree, seen as the list of its entries in the order of their keys.
ghost use Rattle.std.specs.Prelude.{◌≡◌, ℕ, ◌+◌, ◌-◌, ◌*◌, ◌^◌, ◌<◌, ◌≤◌, [], ◌++◌, length, slice_get};
ghost use Rattle.std.specs.Prelude.{IfNone, IfSome, IsTrue, IfOk, IfErr, OnOk, OnErr, Ok, Err, None};
ghost use Rattle.std.specs.Prelude.{Some, is_some, if◌then◌else◌, ◌↔◌};
ghost use Rattle.std.specs.Option.{option_copied, option_map, ForSome};
ghost use Rattle.std.specs.List.{All};
ghost use Rattle.std.specs.BTreeMap.Range.{entries_below, entries_from};
ghost use Rattle.std.specs.Map.Iter.{ShowsInOrder, ShowsValuesInOrder, deref_pair};
ghost use Rattle.cap_value.specs.Memory.{MatchFault};
ghost use Rattle.cap_tree.specs.Change.{change_entry};
ghost use Rattle.cap_tree.specs.Root.{IsTop};
ghost use Rattle.cap_tree.specs.Tree.{IsOrdered, get, put_entry, take_entry, Updates};

use crate::change::{Edit, Put, Take, ask_for_none};
use crate::find::{find, last};
use crate::hook::Hook;
use crate::iter::Iter;
use crate::modify::Modify;
use crate::no_hook::NoHook;
use crate::node::Node;
use crate::path::depth;
use crate::root::{change_in_root, empty_leaf};
use cap_value::{AllocHandle, Exact, Fault, OutOfMemory};
use std::marker::Model;
use std::sync::Arc;

/// A map whose old versions stay readable: a snapshot costs the same whatever the tree holds.
///
/// A tree and its snapshots share nodes. A change copies the shared nodes on one way down, at most once each,
/// and changes the others in place, so it takes time in proportion to the logarithm of the number of entries.
/// Errors are those of the allocator; an error leaves every tree as it was.
///
/// In a clause a tree is the list of its entries, in the order of the keys. No two keys are equal by `Ord`.
pub struct Tree<K: Ord, V, A: AllocHandle> {
    alloc: A,
    // None where there never was an entry.
    root: Option<Arc<Node<K, V, A>, A>>,
}

impl<K: Ord, V, A: AllocHandle> Model for Tree<K, V, A> {
    ghost use Rattle.std.specs.Prelude.{List};
    ghost use Rattle.cap_tree.specs.Root.{root_entries, IsRoot};
    ghost use Rattle.cap_tree.specs.Tree.{IsOrdered};

    ghost Value = { List (K × V) };

    ghost view = { λ t. root_entries t.root };

    ghost invariant = { λ t. IsRoot t.root × IsOrdered K.cmp (root_entries t.root) };
}

// A derived `Drop` would be opened in each caller's loop.
impl<K: Ord + Drop, V: Drop, A: AllocHandle> Drop for Tree<K, V, A> {
    fn drop(self) {
        let Tree { alloc: _, root: _ } = self;
    }
}

impl<K: Ord, V, A: AllocHandle> Tree<K, V, A> {
    /// A tree with no entry, which takes no memory.
    pub fn empty(alloc: A) -> Self
        ensures { result ≡ [] }
    {
        Tree { alloc, root: None }
    }

    /// The number of entries.
    pub fn len(&self) -> usize
        ensures value { result ≡ length self.now }
        ensures ordered { IsOrdered K.cmp self.now }
    {
        match &self.root {
            None => 0,
            Some(node) => node.count(),
        }
    }

    /// Whether there is no entry.
    pub fn is_empty(&self) -> bool
        ensures { IsTrue result ↔ (self.now ≡ []) }
    {
        self.len() == 0
    }

    /// The number of nodes on the way from the root down to an entry, which is the same for all, and 0 for
    /// the empty tree.
    ///
    /// Each node holds at most 16 items, and at least 4 unless it is the root, which then has at least 2
    /// children. So a tree is at most as high as the number of its entries has binary digits.
    pub fn height(&self) -> u64
        ensures empty { (result ≡ 0) ↔ (self.now ≡ []) }
        ensures most { length self.now ≤ 16 ^ result }
        ensures least { 1 < result → 2 * 4 ^ (result - 1) ≤ length self.now }
        ensures digits { (digits : ℕ) → length self.now < 2 ^ digits → result ≤ digits }
    {
        match &self.root {
            None => 0,
            Some(node) => levels(node),
        }
    }

    /// The same tree once more, which shares every node with this one and takes no memory.
    ///
    /// `OutOfMemory` where the root has as many owners as can be counted.
    pub fn snapshot(&self) -> Result<Self, OutOfMemory>
        ensures { IfOk result (λ t. t ≡ self.now) }
    {
        let root = match &self.root {
            None => None,
            Some(node) => Some(Arc::try_clone(node)?),
        };
        Ok(Tree {
            alloc: self.alloc,
            root,
        })
    }

    /// The value at the key.
    pub fn get(&self, key: &K) -> Option<&V>
        ensures { option_copied result ≡ get K.cmp self.now key.now }
    {
        match &self.root {
            None => None,
            Some(node) => find(node, key),
        }
    }

    /// The entries in the order of their keys. Going over all of them takes time in proportion to their
    /// number.
    pub fn iter(&self) -> Iter<'_, K, V, A>
        ensures rest { result ≡ self.now }
        ensures ordered { IsOrdered K.cmp self.now }
        ensures fits { length self.now < 2 ^ 64 }
        ensures runs { ShowsInOrder (deref_pair {K = K} {X = V}) }
        ensures values_run { ShowsValuesInOrder (deref_pair {K = K} {X = V}) }
        ensures found { All (λ e. get K.cmp self.now e.0 ≡ Some e.1) self.now }
    {
        Iter::over(&self.root)
    }

    /// The entries from the first whose key is not below this one.
    pub fn seek(&self, key: &K) -> Iter<'_, K, V, A>
        ensures rest { result ≡ entries_from (K.cmp key.now) self.now }
        ensures children { self.now ≡ entries_below (K.cmp key.now) self.now ++ result }
        ensures ordered { IsOrdered K.cmp result }
        ensures fits { length result < 2 ^ 64 }
        ensures runs { ShowsInOrder (deref_pair {K = K} {X = V}) }
        ensures values_run { ShowsValuesInOrder (deref_pair {K = K} {X = V}) }
    {
        // The length shows that the number of entries fits.
        let _length = self.len();
        Iter::from_key(&self.root, key)
    }

    /// The entry with the least key.
    pub fn first(&self) -> Option<(&K, &V)>
        ensures none { IfNone result (self.now ≡ []) }
        ensures first { IfSome result (λ p. slice_get self.now 0 ≡ Some (deref_pair p)) }
    {
        self.iter().next()
    }

    /// The entry with the greatest key.
    pub fn last(&self) -> Option<(&K, &V)>
        ensures none { IfNone result (self.now ≡ []) }
        ensures last { IfSome result (λ p. slice_get self.now (length self.now - 1) ≡ Some (deref_pair p)) }
    {
        match &self.root {
            None => None,
            Some(node) => {
                let entry = last(node)?;
                Some((&entry.0, &entry.1))
            }
        }
    }
}

impl<'a, K: Ord, V, A: AllocHandle> IntoIterator for &'a Tree<K, V, A> {
    type Item = (&'a K, &'a V);

    type IntoIter = Iter<'a, K, V, A>;

    ghost into_iter_gives = { λ t r. (r ≡ t.now) × IsOrdered K.cmp t.now × (length t.now < 2 ^ 64)
        × ShowsInOrder (deref_pair {K = K} {X = V}) × ShowsValuesInOrder (deref_pair {K = K} {X = V})
        × All (λ e. get K.cmp t.now e.0 ≡ Some e.1) t.now };

    fn into_iter(self) -> Iter<'a, K, V, A> {
        self.iter()
    }
}

impl<K: Ord + Exact + Drop, V: Exact + Drop, A: AllocHandle> Tree<K, V, A> {
    /// Puts the value at the key if the hook allows it, and answers the value that was there. It searches
    /// once.
    ///
    /// `hook` is asked once, after all memory is reserved, and is shown the present value of the key, if any,
    /// and the new one. If it refuses, or on `OutOfMemory`, the tree is as it was.
    pub fn insert_hooked<H: Hook<V>>(
        &mut self,
        key: K,
        value: V,
        hook: &mut H,
    ) -> Result<Option<V>, Fault<H::Refusal>>
        requires { H.can_ask hook.old (get K.cmp self.old key) (Some value) }
        ensures allowed { OnOk result
            (H.gives hook.old (get K.cmp self.old key) (Some value) (Ok tt) hook.new) }
        ensures refused { IfErr result (λ fault. MatchFault fault (hook.new ≡ hook.old)
            (λ why. H.gives hook.old (get K.cmp self.old key) (Some value) (Err why) hook.new)) }
        ensures err { OnErr result (self.new ≡ self.old) }
        ensures ok { OnOk result (self.new ≡ put_entry K.cmp self.old key value) }
        ensures replaced { IfOk result (λ o. o ≡ get K.cmp self.old key) }
    {
        let alloc = self.alloc;
        match &mut self.root {
            None => {
                let mut leaf = empty_leaf(alloc)?;
                let replaced = change_in_root(&mut leaf, alloc, Put { key, value }, hook)?;
                self.root = Some(leaf);
                Ok(replaced)
            }
            Some(node) => change_in_root(node, alloc, Put { key, value }, hook),
        }
    }

    /// Removes the entry at the key, if there is one, if the hook allows it, and answers its value. It
    /// searches once.
    ///
    /// `hook` is asked once, after all memory is reserved, and is shown the present value of the key, if any.
    /// If it refuses, or on `OutOfMemory`, the tree is as it was.
    pub fn remove_hooked<H: Hook<V>>(
        &mut self,
        key: &K,
        hook: &mut H,
    ) -> Result<Option<V>, Fault<H::Refusal>>
        requires { H.can_ask hook.old (get K.cmp self.old key.now) None }
        ensures allowed { OnOk result (H.gives hook.old (get K.cmp self.old key.now) None (Ok tt) hook.new) }
        ensures refused { IfErr result (λ fault. MatchFault fault (hook.new ≡ hook.old)
            (λ why. H.gives hook.old (get K.cmp self.old key.now) None (Err why) hook.new)) }
        ensures err { OnErr result (self.new ≡ self.old) }
        ensures ok { OnOk result (self.new ≡ take_entry K.cmp self.old key.now) }
        ensures removed { IfOk result (λ o. o ≡ get K.cmp self.old key.now) }
    {
        match &mut self.root {
            None => ask_for_none(hook),
            Some(node) => change_in_root(node, self.alloc, Take { key }, hook),
        }
    }

    /// Puts in place of the value at the key, if there is one, the value that is made of it, if the hook
    /// allows it, and answers the value that was there. It searches once.
    ///
    /// `hook` is asked once, after all memory is reserved, and is shown the present value of the key, if any,
    /// and the one made of it. If it refuses, or on `OutOfMemory`, the tree is as it was.
    pub fn modify_hooked<M: Modify<V>, H: Hook<V>>(
        &mut self,
        key: &K,
        modify: &M,
        hook: &mut H,
    ) -> Result<Option<V>, Fault<H::Refusal>>
        requires can_modify { ForSome (get K.cmp self.old key.now) (M.can_modify modify.now) }
        requires can_ask { H.can_ask hook.old (get K.cmp self.old key.now)
            (option_map (M.modified modify.now) (get K.cmp self.old key.now)) }
        ensures allowed { OnOk result (H.gives hook.old (get K.cmp self.old key.now)
            (option_map (M.modified modify.now) (get K.cmp self.old key.now)) (Ok tt) hook.new) }
        ensures refused { IfErr result (λ fault. MatchFault fault (hook.new ≡ hook.old)
            (λ why. H.gives hook.old (get K.cmp self.old key.now)
            (option_map (M.modified modify.now) (get K.cmp self.old key.now)) (Err why) hook.new)) }
        ensures err { OnErr result (self.new ≡ self.old) }
        ensures ok { OnOk result (self.new ≡ change_entry K.cmp self.old key.now
            (option_map (M.modified modify.now) (get K.cmp self.old key.now))) }
        ensures replaced { IfOk result (λ o. o ≡ get K.cmp self.old key.now) }
    {
        match &mut self.root {
            None => ask_for_none(hook),
            Some(node) => change_in_root(node, self.alloc, Edit { key, modify }, hook),
        }
    }

    /// Puts the value at the key, and answers the value that was there. It searches once.
    ///
    /// An entry whose key is equal is replaced, key and all. `OutOfMemory` leaves the tree as it was.
    pub fn insert(&mut self, key: K, value: V) -> Result<Option<V>, OutOfMemory>
        ensures err { OnErr result (self.new ≡ self.old) }
        ensures ok { OnOk result (self.new ≡ put_entry K.cmp self.old key value) }
        ensures replaced { IfOk result (λ o. o ≡ get K.cmp self.old key) }
        ensures updates { OnOk result (Updates K.cmp self.old self.new key (Some value)) }
        ensures len { IfOk result (λ o. length self.new ≡ length self.old + (if is_some o then 0 else 1)) }
        ensures ordered { OnOk result (IsOrdered K.cmp self.new) }
    {
        // The length shows that the entries are ordered.
        let _length = self.len();
        match self.insert_hooked(key, value, &mut NoHook) {
            Ok(replaced) => Ok(replaced),
            Err(_) => Err(OutOfMemory),
        }
    }

    /// Takes the entry at the key out, if there is one, and answers its value. It searches once.
    ///
    /// `OutOfMemory` leaves the tree as it was.
    pub fn remove(&mut self, key: &K) -> Result<Option<V>, OutOfMemory>
        ensures err { OnErr result (self.new ≡ self.old) }
        ensures ok { OnOk result (self.new ≡ take_entry K.cmp self.old key.now) }
        ensures removed { IfOk result (λ o. o ≡ get K.cmp self.old key.now) }
        ensures updates { OnOk result (Updates K.cmp self.old self.new key.now None) }
        ensures len { IfOk result (λ o. length self.new + (if is_some o then 1 else 0) ≡ length self.old) }
        ensures ordered { OnOk result (IsOrdered K.cmp self.new) }
    {
        // The length shows that the entries are ordered.
        let _length = self.len();
        match self.remove_hooked(key, &mut NoHook) {
            Ok(removed) => Ok(removed),
            Err(_) => Err(OutOfMemory),
        }
    }
}

// The number of nodes on each way down from the root, 0 where there is no entry.
fn levels<K: Ord, V, A: AllocHandle>(node: &Node<K, V, A>) -> u64
    requires { IsTop node.now }
    ensures empty { (result ≡ 0) ↔ (node.now.entries ≡ []) }
    ensures most { length node.now.entries ≤ 16 ^ result }
    ensures least { 1 < result → 2 * 4 ^ (result - 1) ≤ length node.now.entries }
    ensures digits { (digits : ℕ) → length node.now.entries < 2 ^ digits → result ≤ digits }
{
    let _length = node.len();
    if node.count() == 0 {
        return 0;
    }
    depth(node) + 1
}
