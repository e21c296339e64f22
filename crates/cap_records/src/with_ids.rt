//! Rows with their ids.
ghost use Rattle.std.specs.Prelude.{◌≡◌, IfOk};
ghost use Rattle.std.specs.Option.{option_copied};
ghost use Rattle.cap_table.specs.Scan.{name_shown};
ghost use Rattle.cap_records.specs.WithIds.{id_of, id_rows, one_row};

use cap_row::Row;
use cap_table::{RowName, RowRef, Scan};
use cap_value::OutOfMemory;
use std::alloc::Global;

/// Rows, each with its id, or 0 where it has a key.
pub(crate) type IdRows = Vec<(u64, Row<Global>), Global>;

/// The row of a name, where there is one.
pub(crate) fn one_row(
    alloc: Global,
    name: &RowRef<Global>,
    found: Option<&Row<Global>>,
) -> Result<IdRows, OutOfMemory>
    ensures { IfOk result (λ rows. rows.items ≡ one_row name.now (option_copied found.entry)) }
{
    let mut rows = Vec::new(alloc);
    if let Some(row) = found {
        rows.push((id_of(name), row.copy()?))?;
    }
    Ok(rows)
}

/// The id of a name, or 0 where the row has a key.
pub(crate) fn id_of(name: &RowRef<Global>) -> u64
    ensures { result ≡ id_of name.now }
{
    match name {
        RowRef::Key(_) => 0,
        RowRef::Loose(id) => *id,
    }
}

/// The rows of a scan, each with its id.
pub(crate) fn id_rows(alloc: Global, scan: Scan<'_, Global>) -> Result<IdRows, OutOfMemory>
    ensures { IfOk result (λ rows. rows.items ≡ id_rows scan.entry) }
{
    let mut rows = Vec::new(alloc);
    for (name, row) in scan {
        rows.push((id_of_name(name), row.copy()?))?;
    }
    Ok(rows)
}

fn id_of_name(name: RowName<'_, Global>) -> u64
    ensures { result ≡ id_of (name_shown name.entry) }
{
    match name {
        RowName::Key(_) => 0,
        RowName::Loose(id) => id,
    }
}
