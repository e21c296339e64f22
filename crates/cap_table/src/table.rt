//! Tables: their columns, keyed rows and loose rows.
ghost use Rattle.std.specs.Prelude.{◌≡◌, ◌≤◌, ◌^◌, IfOk, IfSome, length};
ghost use Rattle.std.specs.Option.{option_copied};
ghost use Rattle.cap_table.specs.Operation.{empty_table, row_of};
ghost use Rattle.cap_table.specs.Scan.{rows};
ghost use Rattle.cap_table.specs.Sound.{IsTable};

use crate::{RowRef, Rows, Scan};
use cap_row::{Key, Row, Schema};
use cap_tree::Tree;
use cap_value::{AllocHandle, Exact, OutOfMemory};
use std::marker::Model;

/// A table: its columns and its rows. A row whose key columns are all there and not NULL is stored under its
/// primary key; every other row is stored under an id. The ids start at 1, count upwards, and are never given
/// again.
///
/// Copies share rows and nodes.
pub struct Table<A: AllocHandle> {
    pub(crate) alloc: A,
    pub(crate) schema: Schema<A>,
    pub(crate) keyed: Tree<Key<A>, Row<A>, A>,
    pub(crate) loose: Tree<u64, Row<A>, A>,
    pub(crate) next_id: u64,
}

impl<A: AllocHandle> Model for Table<A> {
    ghost use Rattle.cap_table.specs.Table.{TableState};

    ghost Value = { TableState A };

    ghost use Rattle.cap_table.specs.Sound.{IsTable};

    ghost view = { λ t. record { schema = t.schema; keyed = t.keyed; loose = t.loose; next_id = t.next_id } };

    ghost invariant = { λ t. IsTable (record {
      schema = t.schema;
      keyed = t.keyed;
      loose = t.loose;
      next_id = t.next_id;
    }) };
}

// A derived `Drop` would be opened in each caller's loop.
impl<A: AllocHandle> Drop for Table<A> {
    fn drop(self) {
        let Table {
            alloc: _,
            schema: _,
            keyed: _,
            loose: _,
            next_id: _,
        } = self;
    }
}

impl<A: AllocHandle> Table<A> {
    /// A table with these columns and no row.
    pub fn empty(alloc: A, schema: Schema<A>) -> Self
        ensures { result ≡ empty_table schema }
    {
        Table::with_next_id(alloc, schema, 1)
    }

    /// An empty table that gives ids from `next_id` on: for a copy that goes on where the ids of another
    /// ended.
    pub fn with_next_id(alloc: A, schema: Schema<A>, next_id: u64) -> Self
        requires first { 1 ≤ next_id }
        requires last { next_id ≤ 2 ^ 63 }
        ensures { result ≡ record (empty_table schema) { next_id = next_id } }
    {
        Table {
            alloc,
            schema,
            keyed: Tree::empty(alloc),
            loose: Tree::empty(alloc),
            next_id,
        }
    }

    /// The columns.
    pub fn schema(&self) -> &Schema<A>
        ensures { result.now ≡ self.now.schema }
    {
        &self.schema
    }

    /// The id that the next row without a key takes, or `ROW_IDS_END` where the last one was given.
    pub fn next_id(&self) -> u64
        ensures id { result ≡ self.now.next_id }
        ensures first { 1 ≤ result }
        ensures last { result ≤ 2 ^ 63 }
    {
        self.next_id
    }

    /// The rows that have a primary key, by it.
    pub fn keyed(&self) -> &Tree<Key<A>, Row<A>, A>
        ensures rows { result.now ≡ self.now.keyed }
        ensures sound { IsTable self.now }
    {
        &self.keyed
    }

    /// The rows that have no primary key, by their ids.
    pub fn loose(&self) -> &Tree<u64, Row<A>, A>
        ensures { result.now ≡ self.now.loose }
    {
        &self.loose
    }

    /// The row of this name.
    pub fn get(&self, name: &RowRef<A>) -> Option<&Row<A>>
        ensures row { option_copied result ≡ row_of self.now name.now }
        ensures width { IfSome result (λ row. length row.now ≡ length self.now.schema) }
    {
        match name {
            RowRef::Key(key) => self.keyed.get(key),
            RowRef::Loose(id) => self.loose.get(id),
        }
    }

    /// All rows, each with its name: those with a key in the order of their keys, and then the others by
    /// their ids.
    pub fn scan(&self) -> Scan<'_, A>
        ensures { result ≡ rows self.now }
    {
        Scan::over(&self.keyed, &self.loose)
    }

    /// All rows as they stand, in the time of two snapshots.
    pub fn rows(&self) -> Result<Rows<A>, OutOfMemory>
        ensures { IfOk result (λ all. all ≡ rows self.now) }
    {
        Rows::of(&self.keyed, &self.loose)
    }

    /// The same table, which shares its rows.
    pub fn snapshot(&self) -> Result<Self, OutOfMemory>
        ensures { IfOk result (λ table. table ≡ self.now) }
    {
        Ok(Table {
            alloc: self.alloc,
            schema: self.schema.copy()?,
            keyed: self.keyed.snapshot()?,
            loose: self.loose.snapshot()?,
            next_id: self.next_id,
        })
    }
}

/// The same table, which shares its rows.
impl<A: AllocHandle> Clone for Table<A> {
    ghost use Rattle.std.specs.Prelude.{◌≡◌};

    ghost is_clone = { λ table clone. clone ≡ table };

    fn clone(&self) -> Result<Self, OutOfMemory> {
        self.snapshot()
    }
}

impl<A: AllocHandle> Exact for Table<A> {
    ghost exact = { λ table clone same. same };
}
