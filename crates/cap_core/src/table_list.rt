//! The tables as they are listed.
ghost use Rattle.std.specs.Prelude.{◌≡◌, IfOk};
ghost use Rattle.cap_core.specs.Listed.{listed_tables};

use crate::ListedTable;
use cap_database::Database;
use cap_value::{AllocHandle, OutOfMemory};
use std::marker::Model;

/// The tables of a server, in the order of their names.
pub struct TableList<A: AllocHandle> {
    tables: Vec<ListedTable<A>, A>,
}

impl<A: AllocHandle> Model for TableList<A> {
    ghost use Rattle.std.specs.Prelude.{List};
    ghost use Rattle.cap_core.specs.declared.listed_table.ListedTable.{ListedTable};

    ghost Value = { List (ListedTable A) };

    ghost view = { λ l. l.tables.items };
}

// A derived `Drop` would be opened in each caller's loop.
impl<A: AllocHandle> Drop for TableList<A> {
    fn drop(self) {
        let TableList { tables: _ } = self;
    }
}

impl<A: AllocHandle> TableList<A> {
    // The tables of this database.
    #[inline(never)]
    pub(crate) fn of(alloc: A, database: &Database<A>) -> Result<Self, OutOfMemory>
        ensures { IfOk result (λ list. list ≡ listed_tables database.now) }
    {
        let tables = database.tables();
        let mut list = Vec::with_capacity(alloc, tables.len())?;
        for named in tables {
            let table = ListedTable::of(&named.0, &named.1)?;
            list.push(table)?;
        }
        Ok(TableList { tables: list })
    }

    /// The tables.
    pub fn as_slice(&self) -> &[ListedTable<A>]
        ensures { result.now ≡ self.now }
    {
        self.tables.as_slice()
    }
}
