//! The names of a table and of a row as arguments.
ghost use Rattle.std.specs.Prelude.{◌≡◌, IsTrue};
ghost use Rattle.std.specs.Result.{result_err};
ghost use Rattle.cap_value.specs.Memory.{AnswersUnlessMemory, RefusesFirst};
ghost use Rattle.cap_records.specs.Arguments.{names_row, row_argument, row_named, table_argument};

use crate::fault::RecordFault;
use crate::names::name_text;
use crate::record::key_of;
use cap_table::RowRef;
use cap_value::{Fault, Name};
use std::alloc::Global;

/// The name of a table.
pub(crate) fn table_argument(
    alloc: Global,
    table: &[u8],
) -> Result<Name<Global>, Fault<RecordFault>>
    ensures name { AnswersUnlessMemory result (table_argument table.now) }
    ensures first { RefusesFirst (result_err (table_argument table.now)) result }
{
    let Some(table) = name_text(table) else {
        return Err(Fault::Refused(RecordFault::Misuse));
    };
    match Name::new(alloc, table) {
        Ok(name) => Ok(name),
        Err(_) => Err(Fault::OutOfMemory),
    }
}

fn names_row(id: u64, key: &[u8]) -> bool
    ensures { result ≡ names_row id key.now }
{
    if key.is_empty() { id != 0 } else { id == 0 }
}

// The row of a name.
fn row_named(alloc: Global, id: u64, key: &[u8]) -> Result<RowRef<Global>, Fault<RecordFault>>
    requires { IsTrue (names_row id key.now) }
    ensures row { AnswersUnlessMemory result (row_named id key.now) }
    ensures first { RefusesFirst (result_err (row_named id key.now)) result }
{
    if id != 0 {
        return Ok(RowRef::Loose(id));
    }
    match key_of(alloc, key) {
        Ok(key) => Ok(RowRef::Key(key)),
        Err(Fault::Refused(fault)) => Err(Fault::Refused(RecordFault::Malformed(fault))),
        Err(Fault::OutOfMemory) => Err(Fault::OutOfMemory),
    }
}

/// The names of a table and of a row of it.
pub(crate) fn row_argument(
    alloc: Global,
    table: &[u8],
    key: &[u8],
    id: u64,
) -> Result<(Name<Global>, RowRef<Global>), Fault<RecordFault>>
    ensures names { AnswersUnlessMemory result (row_argument table.now key.now id) }
    ensures first { RefusesFirst (result_err (row_argument table.now key.now id)) result }
{
    let Some(table) = name_text(table) else {
        return Err(Fault::Refused(RecordFault::Misuse));
    };
    if !names_row(id, key) {
        return Err(Fault::Refused(RecordFault::Misuse));
    }
    let row = row_named(alloc, id, key)?;
    let Ok(name) = Name::new(alloc, table) else {
        return Err(Fault::OutOfMemory);
    };
    Ok((name, row))
}
