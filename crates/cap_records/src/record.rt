//! Rows, keys and new values as records.
ghost use Rattle.std.specs.Prelude.{◌≡◌, ◌≤◌, length, IfOk};
ghost use Rattle.std.specs.Result.{result_err};
ghost use Rattle.cap_value.specs.Memory.{AnswersUnlessMemory, RefusesFirst};
ghost use Rattle.cap_records.specs.Record.{assigned_in, key_in, row_in, values_bytes};

use crate::reading::{columns_set, own_values, take_record};
use crate::writing::values_record;
use cap_changes::FieldRequirement;
use cap_codec::BlobFault;
use cap_database::Assignments;
use cap_row::{Key, Row, RowBuilder};
use cap_value::{Fault, OutOfMemory};
use std::alloc::Global;

/// The row of a record in which every field is defined.
pub fn row_of(alloc: Global, bytes: &[u8]) -> Result<Row<Global>, Fault<BlobFault>>
    // Which row, or which fault.
    ensures row { AnswersUnlessMemory result (row_in bytes.now) }
    ensures first { RefusesFirst (result_err (row_in bytes.now)) result }
    // The bytes, all of them, are the record of what is read.
    ensures spelled { IfOk result (λ row. values_bytes row ≡ bytes.now) }
{
    match take_record(FieldRequirement::Defined, bytes) {
        Ok(record) => {
            let mut row = RowBuilder::with_room(alloc, bytes.len())?;
            row.push_rest(record.as_values())?;
            Ok(row.finish()?)
        }
        Err(fault) => Err(Fault::Refused(fault)),
    }
}

/// The key of a record in which every field is defined and not NULL.
pub(crate) fn key_of(alloc: Global, bytes: &[u8]) -> Result<Key<Global>, Fault<BlobFault>>
    requires some { 1 ≤ length bytes.now }
    ensures key { AnswersUnlessMemory result (key_in bytes.now) }
    ensures first { RefusesFirst (result_err (key_in bytes.now)) result }
{
    let values = match take_record(FieldRequirement::Key, bytes) {
        Ok(record) => own_values(alloc, record.as_values())?,
        Err(fault) => return Err(Fault::Refused(fault)),
    };
    match Key::of_values(alloc, values)? {
        Some(key) => Ok(key),
        None => unreachable!(),
    }
}

/// The new values of a record in which the fields of the columns that stay are undefined, or left out behind
/// the last one.
pub(crate) fn assignments_of(
    alloc: Global,
    bytes: &[u8],
) -> Result<Assignments<Global>, Fault<BlobFault>>
    ensures assigned { AnswersUnlessMemory result (assigned_in bytes.now) }
    ensures first { RefusesFirst (result_err (assigned_in bytes.now)) result }
{
    match take_record(FieldRequirement::Any, bytes) {
        Ok(record) => Ok(columns_set(alloc, record)?),
        Err(fault) => Err(Fault::Refused(fault)),
    }
}

/// The record of a row.
pub fn record_of_row(alloc: Global, row: &Row<Global>) -> Result<Vec<u8, Global>, OutOfMemory>
    ensures bytes { IfOk result (λ bytes. bytes.items ≡ values_bytes row.now) }
    // It is read as the row again.
    ensures again { IfOk result (λ bytes. row_in bytes.items ≡ Ok row.now) }
{
    Ok(Vec::from_slice(alloc, row.fields().as_bytes())?)
}

/// The record of a key.
pub fn record_of_key(alloc: Global, key: &Key<Global>) -> Result<Vec<u8, Global>, OutOfMemory>
    ensures bytes { IfOk result (λ bytes. bytes.items ≡ values_bytes key.now) }
    // It is read as the key again.
    ensures again { IfOk result (λ bytes. key_in bytes.items ≡ Ok key.now) }
{
    values_record(alloc, key.fields())
}
