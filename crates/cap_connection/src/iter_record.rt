//! The record of one side of a change.
ghost use Rattle.std.specs.Prelude.{◌≡◌, ◌++◌, IfOk, OnOk};
ghost use Rattle.std.specs.Global.{Global};
ghost use Rattle.cap_changes.specs.Field.{field_bytes};
ghost use Rattle.cap_changes.specs.FieldReading.{field_of};
ghost use Rattle.cap_connection.specs.Fields.{fields_before, side_at};

use crate::iter_fields::{new_at, old_at};
use crate::iter_position::Position;
use cap_codec::Contents;
use cap_field::{ValueRef, push_blob, push_int, push_null, push_text};
use cap_value::OutOfMemory;
use std::alloc::Global;

/// The row before a change, or the row after it.
#[derive(Clone, Copy, Drop)]
pub(crate) enum Side {
    Old,
    New,
}

// How many bytes a field has, as far as memory for it is asked for at once.
const FIELD_BYTES: usize = 16;

// The type byte of a field that is not defined.
const UNDEFINED: u8 = 0x00;

/// The record of this many columns.
pub(crate) fn side_record(
    alloc: Global,
    contents: &Contents<Global>,
    position: Position,
    side: Side,
    columns: usize,
) -> Result<Vec<u8, Global>, OutOfMemory>
    ensures { IfOk result (λ out. out.items ≡ fields_before (side_at side contents.now position) columns) }
{
    let mut out = Vec::with_capacity(alloc, columns.saturating_mul(FIELD_BYTES))?;
    for column in 0..columns {
        push_field(&mut out, side_at(contents, position, side, column))?;
    }
    Ok(out)
}

fn side_at(
    contents: &Contents<Global>,
    position: Position,
    side: Side,
    column: usize,
) -> Option<ValueRef<'_>>
    ensures { field_of result ≡ side_at side contents.now position column }
{
    match side {
        Side::Old => old_at(contents, position, column),
        Side::New => new_at(contents, position, column),
    }
}

fn push_field(out: &mut Vec<u8, Global>, field: Option<ValueRef<'_>>) -> Result<(), OutOfMemory>
    ensures { OnOk result (out.new.items ≡ out.old.items ++ field_bytes (field_of {A = Global} field.entry)) }
{
    match field {
        None => Ok(out.push(UNDEFINED)?),
        Some(ValueRef::Null) => push_null(out),
        Some(ValueRef::Int(number)) => push_int(out, number),
        Some(ValueRef::Text(text)) => push_text(out, text),
        Some(ValueRef::Blob(blob)) => push_blob(out, blob),
    }
}
