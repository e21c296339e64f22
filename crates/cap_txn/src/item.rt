//! What a transaction can look at, and the order of it.
ghost use Rattle.std.specs.Prelude.{◌≡◌, IfOk};
ghost use Rattle.cap_txn.specs.Footprint.{id_in, in_kind_cmp, in_table_cmp, item_cmp, key_in, kind_of, table_named};

use cap_table::RowRef;
use cap_value::{AllocHandle, Exact, Name, OutOfMemory, Value};
use std::cmp::Ordering;

/// What a transaction can look at.
pub enum Item<A: AllocHandle> {
    /// Whether there is a table of this name, and its columns.
    Table(Name<A>),
    /// The row of this name in a table, or its absence.
    Row(Name<A>, RowRef<A>),
    /// All rows of a table.
    Scan(Name<A>),
    /// The id that a table gives next.
    NextId(Name<A>),
}

// A derived `Drop` would be opened at each place where one is dropped.
impl<A: AllocHandle> Drop for Item<A> {
    fn drop(self) {
        match self {
            Item::Table(_) => {}
            Item::Row(_, _) => {}
            Item::Scan(_) => {}
            Item::NextId(_) => {}
        }
    }
}

impl<A: AllocHandle> Item<A> {
    /// The order of items: by kind, then by the table's name, then by the row's name.
    pub fn order(&self, other: &Self) -> Ordering
        ensures { result ≡ item_cmp self.now other.now }
    {
        match self.kind().cmp(&other.kind()) {
            Ordering::Equal => self.order_in_kind(other),
            order => order,
        }
    }

    // The order of items of one kind: by the table's name, then by the row's name.
    fn order_in_kind(&self, other: &Self) -> Ordering
        ensures { result ≡ in_kind_cmp self.now other.now }
    {
        match self.table().order(other.table()) {
            Ordering::Equal => self.order_in_table(other),
            order => order,
        }
    }

    // The order of items of one kind and one table: by the row's name.
    fn order_in_table(&self, other: &Self) -> Ordering
        ensures { result ≡ in_table_cmp self.now other.now }
    {
        match self.key().cmp(other.key()) {
            Ordering::Equal => self.id().cmp(&other.id()),
            order => order,
        }
    }

    /// The same item, which shares its names and values.
    pub fn copy(&self) -> Result<Self, OutOfMemory>
        ensures { IfOk result (λ copy. copy ≡ self.now) }
    {
        match self {
            Item::Table(name) => Ok(Item::Table(name.copy()?)),
            Item::Row(name, row) => Ok(Item::Row(name.copy()?, row.copy()?)),
            Item::Scan(name) => Ok(Item::Scan(name.copy()?)),
            Item::NextId(name) => Ok(Item::NextId(name.copy()?)),
        }
    }

    fn kind(&self) -> u8
        ensures { result ≡ kind_of self.now }
    {
        match self {
            Item::Table(_) => 0,
            Item::Row(_, RowRef::Key(_)) => 1,
            Item::Row(_, RowRef::Loose(_)) => 2,
            Item::Scan(_) => 3,
            Item::NextId(_) => 4,
        }
    }

    /// The name of its table.
    pub fn table(&self) -> &Name<A>
        ensures { result.now ≡ table_named self.now }
    {
        match self {
            Item::Table(name) => name,
            Item::Row(name, _) => name,
            Item::Scan(name) => name,
            Item::NextId(name) => name,
        }
    }

    fn key(&self) -> &[Value<A>]
        ensures { result.now ≡ key_in self.now }
    {
        match self {
            Item::Row(_, RowRef::Key(key)) => key.fields(),
            _ => &[],
        }
    }

    fn id(&self) -> u64
        ensures { result ≡ id_in self.now }
    {
        match self {
            Item::Row(_, RowRef::Loose(id)) => *id,
            _ => 0,
        }
    }
}

impl<A: AllocHandle> PartialEq for Item<A> {
    ghost use Rattle.std.specs.Cmp.{eq_by_cmp_equiv, partial_equiv_from_equiv};
    ghost use Rattle.cap_txn.specs.Footprint.{item_eq, item_cmp_total};

    ghost eq = { item_eq };

    ghost laws = { partial_equiv_from_equiv (eq_by_cmp_equiv item_cmp_total) };

    fn eq(&self, other: &Self) -> bool {
        self.order(other).is_eq()
    }
}

impl<A: AllocHandle> Eq for Item<A> {
    ghost use Rattle.std.specs.Cmp.{eq_by_cmp_equiv};
    ghost use Rattle.cap_txn.specs.Footprint.{item_cmp_total};

    ghost laws = { eq_by_cmp_equiv item_cmp_total };
}

impl<A: AllocHandle> PartialOrd for Item<A> {
    ghost use Rattle.std.proofs.Common.{refl};
    ghost use Rattle.std.specs.Cmp.{partial_order_from_agreeing_total};
    ghost use Rattle.std.specs.Ordering.{as_partial_cmp};
    ghost use Rattle.cap_txn.specs.Footprint.{item_cmp, item_cmp_total};

    ghost partial_cmp = { as_partial_cmp item_cmp };

    ghost laws = { partial_order_from_agreeing_total item_cmp item_cmp_total (λ x y. refl) (λ x y. refl) };

    fn partial_cmp(&self, other: &Self) -> Option<Ordering> {
        Some(self.order(other))
    }
}

impl<A: AllocHandle> Ord for Item<A> {
    ghost use Rattle.std.proofs.Common.{refl};
    ghost use Rattle.cap_txn.specs.Footprint.{item_cmp, item_cmp_total};

    ghost cmp = { item_cmp };

    ghost total = { item_cmp_total };

    ghost matches_partial_cmp = { λ x y. refl };

    ghost matches_eq = { λ x y. refl };

    fn cmp(&self, other: &Self) -> Ordering {
        self.order(other)
    }
}

/// The same item, which shares its names and values.
impl<A: AllocHandle> Clone for Item<A> {
    ghost use Rattle.std.specs.Prelude.{◌≡◌};

    ghost is_clone = { λ item clone. clone ≡ item };

    fn clone(&self) -> Result<Self, OutOfMemory> {
        self.copy()
    }
}

impl<A: AllocHandle> Exact for Item<A> {
    ghost exact = { λ item clone same. same };
}
