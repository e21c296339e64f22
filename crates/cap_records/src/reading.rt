//! Reading of records that stand alone.
ghost use Rattle.std.specs.Prelude.{◌≡◌, IfOk, IsTrue};
ghost use Rattle.cap_field.specs.Reading.{Reads};
ghost use Rattle.cap_records.specs.Record.{columns_set, has_byte, record_in};

use cap_changes::{FieldRequirement, RecordRef};
use cap_codec::{BlobFault, take_field};
use cap_database::Assignments;
use cap_row::{KeyValues, RowFields};
use cap_value::OutOfMemory;
use std::alloc::Global;

/// The record that the bytes are, all of them: fields with this requirement.
pub(crate) fn take_record<'a>(
    requirement: FieldRequirement,
    bytes: &'a [u8],
) -> Result<RecordRef<'a, Global>, BlobFault>
    requires { IsTrue (has_byte requirement) }
    ensures { Reads (λ fields. fields) result (record_in requirement bytes.now) }
{
    let mut rest = bytes;
    while !rest.is_empty() {
        match take_field::<Global>(bytes.len(), requirement, rest) {
            Ok((_, after)) => rest = after,
            Err(fault) => return Err(fault),
        }
    }
    Ok(RecordRef::of(bytes))
}

/// Owned copies of values.
pub(crate) fn own_values(
    alloc: Global,
    values: RowFields<'_, Global>,
) -> Result<KeyValues<Global>, OutOfMemory>
    ensures { IfOk result (λ own. own.items ≡ values.entry) }
{
    let mut own = KeyValues::new(alloc);
    let mut rest = values;
    while let Some(value) = rest.next_value() {
        own.push(value.own(alloc)?)?;
    }
    Ok(own)
}

/// The columns whose fields are defined, counted from 0, each with its value.
pub(crate) fn columns_set(
    alloc: Global,
    fields: RecordRef<'_, Global>,
) -> Result<Assignments<Global>, OutOfMemory>
    ensures { IfOk result (λ assignments. assignments ≡ columns_set fields.entry) }
{
    let mut columns = Vec::new(alloc);
    let mut rest = fields.copy();
    for column in 0..fields.width() {
        let Some(field) = rest.next_field() else {
            break;
        };
        if let Some(value) = field {
            columns.push((column, value.own(alloc)?))?;
        }
    }
    Ok(Assignments::new(columns))
}
