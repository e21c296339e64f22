//! A row put under its key in one table, and one taken out from under it.
ghost use Rattle.std.specs.Prelude.{◌≡◌, Some, None, IfOk, OnOk, OnErr, IsTrue, is_some};
ghost use Rattle.cap_value.specs.Bytes.{bytes_cmp};
ghost use Rattle.cap_tree.specs.Tree.{IsOrdered};
ghost use Rattle.cap_database.specs.Keyed.{IsOwnRow, row_set};
ghost use Rattle.cap_database.specs.Read.{row_at};
ghost use Rattle.cap_database.specs.Tables.{table_of};

use crate::place::place_of;
use cap_row::{Key, Row};
use cap_table::Table;
use cap_value::{AllocHandle, Name, OutOfMemory};

// Puts a row under its own key in the table of the name.
pub(crate) fn put_in<A: AllocHandle>(
    tables: &mut [(Name<A>, Table<A>)],
    name: &Name<A>,
    key: Key<A>,
    row: Row<A>,
) -> Result<Option<Row<A>>, OutOfMemory>
    requires ordered { IsOrdered bytes_cmp tables.old }
    requires there { IsTrue (is_some (table_of tables.old name.now)) }
    requires own { IsOwnRow tables.old name.now key row }
    ensures set { OnOk result (tables.new ≡ row_set tables.old name.now key (Some row)) }
    ensures kept { OnErr result (tables.new ≡ tables.old) }
    ensures before { IfOk result (λ before. before ≡ row_at tables.old name.now key) }
{
    let Ok(place) = place_of(tables, name) else {
        unreachable!()
    };
    let (_, table) = &mut tables[place];
    table.put_keyed(key, row)
}

// Takes the row of a key out of the table of the name.
pub(crate) fn take_from<A: AllocHandle>(
    tables: &mut [(Name<A>, Table<A>)],
    name: &Name<A>,
    key: &Key<A>,
) -> Result<Option<Row<A>>, OutOfMemory>
    requires ordered { IsOrdered bytes_cmp tables.old }
    requires there { IsTrue (is_some (table_of tables.old name.now)) }
    ensures set { OnOk result (tables.new ≡ row_set tables.old name.now key.now None) }
    ensures kept { OnErr result (tables.new ≡ tables.old) }
    ensures before { IfOk result (λ before. before ≡ row_at tables.old name.now key.now) }
{
    let Ok(place) = place_of(tables, name) else {
        unreachable!()
    };
    let (_, table) = &mut tables[place];
    table.take_keyed(key)
}
