//! Items, each once, in the order in which they came first.
ghost use Rattle.std.specs.Prelude.{◌≡◌, ◌≤◌, [], IfOk, OnOk, OnErr, length, take, true};
ghost use Rattle.std.specs.List.{list_any};
ghost use Rattle.std.specs.Ordering.{eq_by_cmp};
ghost use Rattle.cap_txn.specs.OrderedSet.{with_item, with_each, AreKnown};

use cap_tree::Tree;
use cap_value::{AllocHandle, Exact, OutOfMemory};
use std::marker::Model;

// Items, each once, in the order in which they came first. Whether one is there is found in O(log n).
pub(crate) struct OrderedSet<K: Ord, A: AllocHandle> {
    items: Vec<K, A>,
    // Where each item stands. An entry at whose place there is no item, or another, is of no account.
    places: Tree<K, u64, A>,
}

impl<K: Ord, A: AllocHandle> Model for OrderedSet<K, A> {
    ghost use Rattle.std.specs.Prelude.{List};
    ghost use Rattle.cap_txn.specs.OrderedSet.{AreKnown};

    ghost Value = { List K };

    ghost view = { λ o. o.items.items };

    ghost invariant = { λ o. AreKnown K.cmp o.places 0 o.items.items };
}

impl<K: Ord + Drop, A: AllocHandle> Drop for OrderedSet<K, A> {
    fn drop(self) {
        let OrderedSet {
            items: _,
            places: _,
        } = self;
    }
}

impl<K: Ord + Exact + Drop, A: AllocHandle> OrderedSet<K, A> {
    // No items, which take no memory.
    pub(crate) fn new(alloc: A) -> Self
        ensures { result ≡ [] }
    {
        OrderedSet {
            items: Vec::new(alloc),
            places: Tree::empty(alloc),
        }
    }

    // The items.
    pub(crate) fn items(&self) -> &[K]
        ensures { result.now ≡ self.now }
    {
        self.items.as_slice()
    }

    // How many there are.
    pub(crate) fn len(&self) -> usize
        ensures { result ≡ length self.now }
    {
        self.items.len()
    }

    // The items, and how they are found is let go. It takes no memory.
    pub(crate) fn into_items(self) -> Vec<K, A>
        ensures { result.items ≡ self }
    {
        let OrderedSet { items, places: _ } = self;
        items
    }

    // Puts a copy of an item last, unless it is there. Without memory everything is as before.
    pub(crate) fn add(&mut self, item: &K) -> Result<(), OutOfMemory>
        ensures ok { OnOk result (self.new ≡ with_item K.cmp self.old item.now) }
        ensures err { OnErr result (self.new ≡ self.old) }
    {
        if holds(self.items.as_slice(), &self.places, item) {
            return Ok(());
        }
        let place = self.items.len() as u64;
        self.items.reserve(1)?;
        let copies = two_copies(item)?;
        let (copy, own) = copies;
        self.places.insert(copy, place)?;
        self.items.push_reserved(own);
        Ok(())
    }

    // Takes away all but the first items. It takes no memory.
    pub(crate) fn truncate(&mut self, len: usize)
        ensures { self.new ≡ take len self.old }
    {
        self.items.truncate(len);
    }
}

// Whether the item is there. The last one is looked at first, since a row that was read is often written next.
fn holds<K: Ord, A: AllocHandle>(items: &[K], places: &Tree<K, u64, A>, item: &K) -> bool
    requires { AreKnown K.cmp places.now 0 items.now }
    ensures { result ≡ list_any (eq_by_cmp K.cmp item.now) items.now }
{
    if is_last(items, item) {
        return true;
    }
    let Some(place) = places.get(item) else {
        return false;
    };
    if *place >= items.len() as u64 {
        return false;
    }
    item.cmp(&items[*place as usize]).is_eq()
}

// Whether the item is the last one.
#[inline]
fn is_last<K: Ord>(items: &[K], item: &K) -> bool
    ensures { result ≡ true → list_any (eq_by_cmp K.cmp item.now) items.now ≡ true }
{
    if items.is_empty() {
        return false;
    }
    item.cmp(&items[items.len() - 1]).is_eq()
}

// Puts copies of items last, each unless it is there. Without memory everything is as before.
pub(crate) fn add_each<K: Ord + Exact + Drop, A: AllocHandle>(
    set: &mut OrderedSet<K, A>,
    items: Vec<K, A>,
) -> Result<(), OutOfMemory>
    ensures ok { OnOk result (set.new ≡ with_each K.cmp set.old items.items) }
    ensures err { OnErr result (set.new ≡ set.old) }
{
    let len = set.len();
    for item in &items {
        if set.add(item).is_err() {
            set.truncate(len);
            return Err(OutOfMemory);
        }
    }
    Ok(())
}

fn two_copies<K: Exact + Drop>(item: &K) -> Result<(K, K), OutOfMemory>
    ensures { IfOk result (λ copies. (copies.0 ≡ item.now) × (copies.1 ≡ item.now)) }
{
    let copy = exact_copy(item)?;
    let own = exact_copy(item)?;
    Ok((copy, own))
}

fn exact_copy<K: Exact>(item: &K) -> Result<K, OutOfMemory>
    ensures { IfOk result (λ copy. copy ≡ item.now) }
{
    Ok(item.clone()?)
}
