//! The limits that a table keeps.
ghost use Rattle.std.specs.Prelude.{◌≡◌, All};
ghost use Rattle.cap_value.specs.Value.{IsValue};
ghost use Rattle.cap_dump.specs.Limits.{HasLimits, HaveValues};

use cap_row::RowFields;
use cap_table::Table;
use cap_value::{AllocHandle, Name};

/// A law: the name, the columns and the values of a table keep the limits. At run time it visits each row.
pub fn table_has_limits<A: AllocHandle>(name: &Name<A>, table: &Table<A>)
    ensures { HasLimits (name.now, table.now) }
{
    let _name = name.as_str();
    let _flags = table.schema().flags();
    rows_have_values(table);
}

fn rows_have_values<A: AllocHandle>(table: &Table<A>)
    ensures { HaveValues table.now.keyed }
{
    for (_, row) in table.keyed() {
        are_values(row.fields());
    }
}

fn are_values<A: AllocHandle>(fields: RowFields<'_, A>)
    ensures { All IsValue fields.entry }
{
    let _bytes = fields.as_bytes();
}
