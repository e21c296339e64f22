//! The records of one table.
ghost use Rattle.std.specs.Prelude.{◌≡◌, ◌≤◌, ◌^◌, ◌↔◌, [], None, length, true, IfOk, IsTrue, OnErr, OnOk};
ghost use Rattle.std.specs.Map.Iter.{ShowsInOrder, deref_pair};
ghost use Rattle.std.specs.Option.{option_copied};
ghost use Rattle.cap_row.specs.Fields.{Fields};
ghost use Rattle.cap_row.specs.Key.{fields_cmp};
ghost use Rattle.cap_tree.specs.Shape.{EachBelow};
ghost use Rattle.cap_tree.specs.Tree.{IsOrdered, get, put_entry};
ghost use Rattle.cap_session.specs.Code.Latest.{with_latest};
ghost use Rattle.cap_session.specs.declared.record.Record.{Record};

use crate::Record;
use crate::records_iter::RecordsIter;
use cap_row::Key;
use cap_tree::Tree;
use cap_value::{AllocHandle, OutOfMemory};
use std::cmp::Ordering;
use std::marker::Model;

/// The records of one table: its touched keys in order, each with its record.
///
/// The record that was put last is stored beside the tree of the others, and moves into it before the next
/// one is put. So records with one more share every node of the tree, and once they are published the tree is
/// changed in place.
pub struct Records<A: AllocHandle> {
    tree: Tree<Key<A>, Record<A>, A>,
    latest: Option<(Key<A>, Record<A>)>,
    // Whether the latest key is known to be above those of the tree, so that no key above it is searched for.
    is_last: bool,
}

impl<A: AllocHandle> Model for Records<A> {
    ghost use Rattle.cap_row.specs.Key.{fields_cmp};
    ghost use Rattle.cap_tree.specs.Tree.{IsOrdered};
    ghost use Rattle.cap_session.specs.Records.{Records};
    ghost use Rattle.cap_session.specs.Code.Latest.{IsLast, with_latest};
    ghost use Rattle.std.specs.Prelude.{◌≡◌, true};

    ghost Value = { Records A };

    ghost view = { λ r. with_latest r.tree r.latest };

    ghost invariant = { λ r. IsOrdered fields_cmp (with_latest r.tree r.latest)
        × (r.is_last ≡ true → IsLast r.tree r.latest) };
}

// A derived `Drop` would be opened in each caller's loop.
impl<A: AllocHandle> Drop for Records<A> {
    fn drop(self) {
        let Records {
            tree: _,
            latest: _,
            is_last: _,
        } = self;
    }
}

impl<A: AllocHandle> Records<A> {
    // No records. Takes no memory.
    pub(crate) fn empty(alloc: A) -> Self
        ensures { result ≡ [] }
    {
        Records {
            tree: Tree::empty(alloc),
            latest: None,
            is_last: true,
        }
    }

    /// The number of records.
    pub fn count(&self) -> u128
        ensures count { result ≡ length self.now }
        ensures fits { result ≤ 2 ^ 64 }
        ensures ordered { IsOrdered fields_cmp self.now }
    {
        let others = self.tree.len() as u128;
        match &self.latest {
            None => others,
            Some((key, _)) => match self.tree.get(key) {
                None => others + 1,
                Some(_) => others,
            },
        }
    }

    /// Whether there is no record.
    pub fn is_empty(&self) -> bool
        ensures { IsTrue result ↔ (self.now ≡ []) }
    {
        match &self.latest {
            None => self.tree.is_empty(),
            Some(_) => false,
        }
    }

    /// The record of a key, if any.
    pub fn get(&self, key: &Key<A>) -> Option<&Record<A>>
        ensures found { option_copied result ≡ get fields_cmp self.now key.now }
        ensures ordered { IsOrdered fields_cmp self.now }
    {
        match &self.latest {
            None => self.tree.get(key),
            Some((latest, record)) => match key.order(latest) {
                Ordering::Equal => Some(record),
                Ordering::Less => self.tree.get(key),
                Ordering::Greater => {
                    if self.is_last {
                        None
                    } else {
                        self.tree.get(key)
                    }
                }
            },
        }
    }

    // Whether the key is above those of all records. Where the latest is the last, it alone is compared.
    fn is_above(&self, key: &Key<A>) -> bool
        ensures { result ≡ true → EachBelow fields_cmp key.now self.now }
    {
        match &self.latest {
            None => is_above_tree(&self.tree, key),
            Some((latest, _)) => match key.order(latest) {
                Ordering::Greater => self.is_last || is_above_tree(&self.tree, key),
                Ordering::Less | Ordering::Equal => false,
            },
        }
    }

    /// A copy, which shares the nodes of the tree.
    pub fn copy(&self) -> Result<Self, OutOfMemory>
        ensures { IfOk result (λ copy. copy ≡ self.now) }
    {
        let latest = match &self.latest {
            Some((key, record)) => Some((key.copy()?, record.copy()?)),
            None => None,
        };
        Ok(Records {
            tree: self.tree.snapshot()?,
            latest,
            is_last: self.is_last,
        })
    }

    // Puts a record at its key.
    pub(crate) fn put(&mut self, key: Key<A>, kept: Record<A>) -> Result<(), OutOfMemory>
        ensures { OnOk result (self.new ≡ put_entry fields_cmp self.old key kept) }
    {
        let is_last = self.is_above(&key);
        move_latest(&mut self.tree, &mut self.latest)?;
        self.latest = Some((key, kept));
        self.is_last = is_last;
        Ok(())
    }

    // These records with one more put at its key, which share the nodes of the tree.
    #[inline(always)]
    pub(crate) fn with(&mut self, key: Key<A>, kept: Record<A>) -> Result<Self, OutOfMemory>
        ensures kept { self.new ≡ self.old }
        ensures put { IfOk result (λ after. after ≡ put_entry fields_cmp self.old key kept) }
    {
        let is_last = self.is_above(&key);
        move_latest(&mut self.tree, &mut self.latest)?;
        Ok(Records {
            tree: self.tree.snapshot()?,
            latest: Some((key, kept)),
            is_last,
        })
    }

    /// The records in the order of their keys.
    pub fn iter(&self) -> RecordsIter<'_, A>
        ensures rest { result ≡ self.now }
        ensures ordered { IsOrdered fields_cmp self.now }
        ensures runs { ShowsInOrder (deref_pair {K = Fields A} {X = Record A}) }
    {
        let latest = match &self.latest {
            Some((key, record)) => Some((key, record)),
            None => None,
        };
        RecordsIter::over(latest, self.tree.iter())
    }
}

// Whether the key is above those of the tree.
fn is_above_tree<A: AllocHandle>(tree: &Tree<Key<A>, Record<A>, A>, key: &Key<A>) -> bool
    ensures { result ≡ true → EachBelow fields_cmp key.now tree.now }
{
    // The length shows that the keys rise.
    let _length = tree.len();
    match tree.last() {
        None => true,
        Some((last, _)) => match key.order(last) {
            Ordering::Greater => true,
            Ordering::Less | Ordering::Equal => false,
        },
    }
}

// Moves the latest record, if any, into the tree of the others.
fn move_latest<A: AllocHandle>(
    tree: &mut Tree<Key<A>, Record<A>, A>,
    latest: &mut Option<(Key<A>, Record<A>)>,
) -> Result<(), OutOfMemory>
    ensures moved { OnOk result (tree.new ≡ with_latest tree.old latest.old) }
    ensures none { OnOk result (latest.new ≡ None) }
    ensures kept { OnErr result ((tree.new ≡ tree.old) × (latest.new ≡ latest.old)) }
{
    if let Some((key, record)) = &*latest {
        let key = key.copy()?;
        let record = record.copy()?;
        tree.insert(key, record)?;
        *latest = None;
    }
    Ok(())
}

impl<'a, A: AllocHandle> IntoIterator for &'a Records<A> {
    type Item = (&'a Key<A>, &'a Record<A>);

    type IntoIter = RecordsIter<'a, A>;

    ghost into_iter_gives = { λ t r. (r ≡ t.now) × IsOrdered fields_cmp t.now
        × ShowsInOrder (deref_pair {K = Fields A} {X = Record A}) };

    fn into_iter(self) -> RecordsIter<'a, A> {
        self.iter()
    }
}
