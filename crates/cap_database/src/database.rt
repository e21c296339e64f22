//! Databases: tables under their names.
ghost use Rattle.std.specs.Prelude.{◌≡◌, ◌≤◌, [], length, Ok, Err, Some, None, IfOk, IfSome, IfNone, IsTrue};
ghost use Rattle.std.specs.Prelude.{OnOk, OnErr, is_some};
ghost use Rattle.std.specs.Option.{option_copied};
ghost use Rattle.cap_value.specs.Bytes.{bytes_cmp};
ghost use Rattle.cap_value.specs.declared.refusal.Refusal.{Refusal};
ghost use Rattle.cap_tree.specs.Tree.{IsOrdered};
ghost use Rattle.cap_table.specs.WithHook.{LeavesIfAllowed};
ghost use Rattle.cap_value.specs.Memory.{LeavesUnlessMemory, RefusesFirst};
ghost use Rattle.cap_database.specs.Tables.{EachRises, Tables, create, refused_create, table_of};
ghost use Rattle.cap_table.specs.ChangeFault.{RefusesAtOnce};
ghost use Rattle.cap_database.specs.Operation.{step, changes_made, changes, refused_step};
ghost use Rattle.cap_database.specs.KeptKey.{AreOfKey, kept_key, row_left};
ghost use Rattle.cap_database.specs.Keyed.{IsOwnRow, row_set};
ghost use Rattle.cap_database.specs.Read.{read, row_at, rows_of, Lends};

use crate::kept_key::kept_in;
use crate::keyed::{put_in, take_from};
use crate::limits::TABLES_MAX;
use crate::place::{copies, place_of, put_at, step_at, step_keyed_at};
use crate::{Effect, Op};
use cap_row::{Key, Row, Schema};
use cap_table::{ChangeFault, RowRef, Scan, Table};
use cap_tree::Hook;
use cap_value::{AllocHandle, Exact, Fault, Name, OutOfMemory, Refusal};
use std::marker::Model;

/// Tables by name.
///
/// They are in one list, which a snapshot copies: at most 64 reference counts. The rows are shared.
pub struct Database<A: AllocHandle> {
    tables: Vec<(Name<A>, Table<A>), A>,
}

impl<A: AllocHandle> Model for Database<A> {
    ghost use Rattle.cap_database.specs.Tables.{Tables};

    ghost Value = { Tables A };

    ghost use Rattle.cap_database.specs.Tables.{AreTables};

    ghost view = { λ d. d.tables.items };

    ghost invariant = { λ d. AreTables d.tables.items };
}

// A derived `Drop` would be opened in each caller's loop.
impl<A: AllocHandle> Drop for Database<A> {
    fn drop(self) {
        let Database { tables: _ } = self;
    }
}

impl<A: AllocHandle> Database<A> {
    /// A database without tables, which takes no memory.
    pub fn empty(alloc: A) -> Self
        ensures { result ≡ [] }
    {
        Database {
            tables: Vec::new(alloc),
        }
    }

    /// How many tables there are.
    pub fn len(&self) -> usize
        ensures tables { result ≡ length self.now }
        ensures few { result ≤ TABLES_MAX }
        ensures ordered { IsOrdered bytes_cmp self.now }
    {
        self.tables.len()
    }

    /// The tables with their names, in the order of the names.
    pub fn tables(&self) -> &[(Name<A>, Table<A>)]
        ensures { result.now ≡ self.now }
    {
        self.tables.as_slice()
    }

    /// A law of every database, for who keeps rows of it: in each table keys and ids rise, each row has the
    /// table's width, and is stored under its own key, or where it has none under an id that was given. The
    /// call does nothing.
    pub fn sound_rows_law(&self)
        ensures { EachRises self.now }
    {
        let _tables = &self.tables;
    }

    /// The table of this name.
    pub fn table(&self, name: &Name<A>) -> Option<&Table<A>>
        ensures { option_copied result ≡ table_of self.now name.now }
    {
        match place_of(&self.tables, name) {
            Ok(place) => Some(&self.tables[place].1),
            Err(_) => None,
        }
    }

    /// The row of a key in the table of this name, or none where no row has the key or no table the name.
    pub fn row(&self, table: &Name<A>, key: &Key<A>) -> Option<&Row<A>>
        ensures { option_copied result ≡ row_at self.now table.now key.now }
    {
        match self.table(table) {
            Some(table) => table.keyed().get(key),
            None => None,
        }
    }

    /// Adds a table without rows. Refused with `TableExists` where a table has the name already, and then
    /// with `TooMany` where there are `TABLES_MAX`. On an error the database is as before.
    pub fn create(&mut self, name: Name<A>, schema: Schema<A>) -> Result<(), Fault<Refusal>>
        ensures tables { LeavesUnlessMemory result (create self.old name schema) self.new }
        ensures kept { OnErr result (self.new ≡ self.old) }
        ensures first { RefusesFirst (refused_create self.old name) result }
    {
        cap_table::laws::operations_keep_tables::<A>();
        let place = match place_of(&self.tables, &name) {
            Ok(_) => return Err(Fault::Refused(Refusal::TableExists)),
            Err(place) => place,
        };
        if self.tables.len() >= TABLES_MAX {
            return Err(Fault::Refused(Refusal::TooMany));
        }
        let table = Table::empty(*self.tables.allocator(), schema);
        put_at(&mut self.tables, place, name, table)?;
        Ok(())
    }

    /// Makes one operation, and answers its changes. Refused with `NoTable` where no table has the name, and
    /// then as the table's call refuses it. On an error the database is as before.
    pub fn step(&mut self, op: &Op<A>) -> Result<Effect<A>, Fault<Refusal>>
        ensures tables { LeavesUnlessMemory result (step self.old op.now) self.new }
        ensures kept { OnErr result (self.new ≡ self.old) }
        ensures changes { IfOk result (λ step. changes_made step ≡ changes self.old op.now) }
        ensures first { RefusesFirst (refused_step self.old op.now) result }
    {
        cap_table::laws::operations_keep_tables::<A>();
        match place_of(&self.tables, &op.table) {
            Ok(place) => step_at(&mut self.tables, place, op),
            Err(_) => Err(Fault::Refused(Refusal::NoTable)),
        }
    }

    // Its allocator.
    pub(crate) fn allocator(&self) -> A {
        *self.tables.allocator()
    }

    // The key of the row that an operation adds, takes out, or changes outside its key: of a row that has
    // one and keeps it. None of any other operation, and where no table has the name.
    pub(crate) fn kept_key(&self, op: &Op<A>) -> Result<Option<Key<A>>, OutOfMemory>
        ensures key { IfOk result (λ key. key ≡ kept_key self.now op.now) }
        ensures first { table_of self.now op.now.table ≡ None → result ≡ Ok None }
    {
        match self.table(&op.table) {
            Some(table) => kept_in(table, &op.action),
            None => Ok(None),
        }
    }

    // Makes an operation on a row that keeps this key in place, if the hook allows it, with `step`'s
    // refusals. The hook is asked once, after all memory is reserved, and only if the rules accept the
    // operation. It is shown the row under the key before and after. On an error the database is as before.
    pub(crate) fn step_keyed<H: Hook<Row<A>>>(
        &mut self,
        op: &Op<A>,
        key: &Key<A>,
        hook: &mut H,
    ) -> Result<(), ChangeFault<H::Refusal>>
        requires key { kept_key self.old op.now ≡ Some key.now }
        requires can_ask { (after : Tables A) → step self.old op.now ≡ Ok after
            → H.can_ask hook.old (row_at self.old op.now.table key.now)
            (row_left op.now.action (row_at self.old op.now.table key.now)) }
        ensures tables { LeavesIfAllowed result (step self.old op.now) self.new (hook.new ≡ hook.old)
            (λ answer. H.gives hook.old (row_at self.old op.now.table key.now)
            (row_left op.now.action (row_at self.old op.now.table key.now)) answer hook.new) }
        ensures kept { OnErr result (self.new ≡ self.old) }
        ensures changes { (after : Tables A) → step self.old op.now ≡ Ok after
            → AreOfKey op.now key.now (row_at self.old op.now.table key.now) (changes self.old op.now) }
        ensures first { RefusesAtOnce (refused_step self.old op.now) result }
    {
        cap_table::laws::operations_keep_tables::<A>();
        let Ok(place) = place_of(&self.tables, &op.table) else {
            unreachable!()
        };
        step_keyed_at(&mut self.tables, place, op, key, hook)
    }

    /// Puts a row under its own key in the table of this name, and answers the row that was there, if any. The
    /// table is searched once. On an error the database is as before.
    pub fn put_row(
        &mut self,
        table: &Name<A>,
        key: Key<A>,
        row: Row<A>,
    ) -> Result<Option<Row<A>>, OutOfMemory>
        requires there { IsTrue (is_some (table_of self.old table.now)) }
        requires own { IsOwnRow self.old table.now key row }
        ensures set { OnOk result (self.new ≡ row_set self.old table.now key (Some row)) }
        ensures kept { OnErr result (self.new ≡ self.old) }
        ensures before { IfOk result (λ before. before ≡ row_at self.old table.now key) }
    {
        cap_table::laws::keyed_rows_keep_tables::<A>();
        put_in(&mut self.tables, table, key, row)
    }

    /// Takes the row of a key out of the table of this name, and answers it, if any. The table is searched
    /// once. On an error the database is as before.
    pub fn take_row(&mut self, table: &Name<A>, key: &Key<A>) -> Result<Option<Row<A>>, OutOfMemory>
        requires there { IsTrue (is_some (table_of self.old table.now)) }
        ensures set { OnOk result (self.new ≡ row_set self.old table.now key.now None) }
        ensures kept { OnErr result (self.new ≡ self.old) }
        ensures before { IfOk result (λ before. before ≡ row_at self.old table.now key.now) }
        ensures none { IfOk result (λ before. IfNone before (self.new ≡ self.old)) }
    {
        cap_table::laws::keyed_rows_keep_tables::<A>();
        take_from(&mut self.tables, table, key)
    }

    /// The row of this name in a table, or its absence. Refused with `NoTable` where no table has the name.
    pub fn get(&self, table: &Name<A>, row: &RowRef<A>) -> Result<Option<&Row<A>>, Refusal>
        ensures { Lends result (read self.now table.now row.now) }
    {
        match self.table(table) {
            Some(table) => Ok(table.get(row)),
            None => Err(Refusal::NoTable),
        }
    }

    /// All rows of a table, each with its name: those with a key in the order of their keys, and then the
    /// others by their ids. Refused with `NoTable` where no table has the name.
    pub fn scan(&self, table: &Name<A>) -> Result<Scan<'_, A>, Refusal>
        ensures { result ≡ rows_of self.now table.now }
    {
        match self.table(table) {
            Some(table) => Ok(table.scan()),
            None => Err(Refusal::NoTable),
        }
    }

    /// The same database, which shares its rows.
    pub fn snapshot(&self) -> Result<Self, OutOfMemory>
        ensures { IfOk result (λ database. database ≡ self.now) }
    {
        Ok(Database {
            tables: copies(*self.tables.allocator(), &self.tables)?,
        })
    }
}

/// The same database, which shares its rows.
impl<A: AllocHandle> Clone for Database<A> {
    ghost use Rattle.std.specs.Prelude.{◌≡◌};

    ghost is_clone = { λ database clone. clone ≡ database };

    fn clone(&self) -> Result<Self, OutOfMemory> {
        self.snapshot()
    }
}

impl<A: AllocHandle> Exact for Database<A> {
    ghost exact = { λ database clone same. same };
}
