//! Rows that are read of snapshots.
ghost use Rattle.std.specs.Prelude.{◌≡◌, take, IfOk};
ghost use Rattle.std.specs.Result.{result_err};
ghost use Rattle.cap_value.specs.Memory.{AnswersUnlessMemory, RefusesFirst};
ghost use Rattle.cap_database.specs.Read.{read};
ghost use Rattle.cap_records.specs.Arguments.{row_argument, table_argument};
ghost use Rattle.cap_records.specs.Reads.{get_in, over, rows_from, scan_from_in, scan_in};
ghost use Rattle.cap_records.specs.WithIds.{keyed_rows, one_row};

use crate::arguments::{row_argument, table_argument};
use crate::fault::RecordFault;
use crate::rows::RowCursor;
use crate::with_ids::{IdRows, id_rows, one_row};
use cap_database::Snapshot;
use cap_row::{Key, Row};
use cap_table::{RowRef, Table};
use cap_tree::Iter;
use cap_value::{Fault, Name, OutOfMemory, Refusal};
use std::alloc::Global;

/// The row with this key, or where that is empty with this id, or its absence. A name that is none, a key
/// beside an id other than 0, and an empty key beside 0 are misuse. Refused with `NoTable` where no table has
/// the name.
pub fn get(
    alloc: Global,
    snapshot: &Snapshot<Global>,
    table: &[u8],
    key: &[u8],
    id: u64,
) -> Result<RowCursor, Fault<RecordFault>>
    ensures rows { AnswersUnlessMemory result (get_in snapshot.now.database table.now key.now id) }
    ensures first { RefusesFirst (result_err (row_argument table.now key.now id)) result }
{
    let (table, row) = row_argument(alloc, table, key, id)?;
    get_row(alloc, snapshot, &table, &row)
}

fn get_row(
    alloc: Global,
    snapshot: &Snapshot<Global>,
    table: &Name<Global>,
    row: &RowRef<Global>,
) -> Result<RowCursor, Fault<RecordFault>>
    ensures { AnswersUnlessMemory result
        (over (one_row row.now) (read snapshot.now.database table.now row.now)) }
{
    match snapshot.get(table, row) {
        Ok(found) => Ok(RowCursor::new(one_row(alloc, row, found)?)),
        Err(why) => Err(Fault::Refused(RecordFault::Refused(why))),
    }
}

/// All rows of a table: those with a key in the order of their keys, and then the others by their ids. A name
/// that is none is misuse. Refused with `NoTable` where no table has the name.
pub fn scan(
    alloc: Global,
    snapshot: &Snapshot<Global>,
    table: &[u8],
) -> Result<RowCursor, Fault<RecordFault>>
    ensures rows { AnswersUnlessMemory result (scan_in snapshot.now.database table.now) }
    ensures first { RefusesFirst (result_err (table_argument table.now)) result }
{
    let table = table_argument(alloc, table)?;
    match snapshot.scan(&table) {
        Ok(rows) => Ok(RowCursor::new(id_rows(alloc, rows)?)),
        Err(why) => Err(Fault::Refused(RecordFault::Refused(why))),
    }
}

/// The rows with a key that is not below this one, in the order of their keys, at most `limit` of them. A
/// name that is none and an empty key are misuse. Refused with `NoTable` where no table has the name.
pub fn scan_from(
    alloc: Global,
    snapshot: &Snapshot<Global>,
    table: &[u8],
    key: &[u8],
    limit: u64,
) -> Result<RowCursor, Fault<RecordFault>>
    ensures rows { AnswersUnlessMemory result (scan_from_in snapshot.now.database table.now key.now limit) }
    ensures first { RefusesFirst (result_err (row_argument table.now key.now 0)) result }
{
    let (table, from) = row_argument(alloc, table, key, 0)?;
    match snapshot.database().table(&table) {
        Some(table) => Ok(RowCursor::new(rows_from(alloc, &from, limit, table)?)),
        None => Err(Fault::Refused(RecordFault::Refused(Refusal::NoTable))),
    }
}

fn rows_from(
    alloc: Global,
    from: &RowRef<Global>,
    limit: u64,
    table: &Table<Global>,
) -> Result<IdRows, OutOfMemory>
    ensures { IfOk result (λ rows. rows.items ≡ rows_from from.now limit table.now) }
{
    match from {
        RowRef::Key(key) => first_rows(alloc, limit, table.keyed().seek(key)),
        RowRef::Loose(_) => Ok(Vec::new(alloc)),
    }
}

// The rows of the first entries.
fn first_rows(
    alloc: Global,
    limit: u64,
    entries: Iter<'_, Key<Global>, Row<Global>, Global>,
) -> Result<IdRows, OutOfMemory>
    ensures { IfOk result (λ rows. rows.items ≡ take limit (keyed_rows entries.entry)) }
{
    let mut rows = Vec::new(alloc);
    for (_, row) in entries {
        if rows.len() as u64 >= limit {
            return Ok(rows);
        }
        rows.push((0, row.copy()?))?;
    }
    Ok(rows)
}
