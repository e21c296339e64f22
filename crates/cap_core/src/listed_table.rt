//! A table as it is listed.
ghost use Rattle.std.specs.Prelude.{◌≡◌, IfOk};
ghost use Rattle.cap_core.specs.Listed.{listed_table};

use cap_row::Schema;
use cap_table::Table;
use cap_value::{AllocHandle, Name, OutOfMemory};

/// A table: its name, its columns, and how many rows it has.
#[derive(Drop)]
pub struct ListedTable<A: AllocHandle> {
    /// Its name.
    pub name: Name<A>,
    /// Its columns.
    pub schema: Schema<A>,
    /// The number of its rows that have a key.
    pub keyed: u64,
    /// The number of its rows that have none.
    pub loose: u64,
}

impl<A: AllocHandle> ListedTable<A> {
    // The table of this name.
    pub(crate) fn of(name: &Name<A>, table: &Table<A>) -> Result<Self, OutOfMemory>
        ensures { IfOk result (λ listed. listed ≡ listed_table (name.now, table.now)) }
    {
        Ok(ListedTable {
            name: name.copy()?,
            schema: table.schema().copy()?,
            keyed: table.keyed().len() as u64,
            loose: table.loose().len() as u64,
        })
    }
}
