//! The calls on rows that were read.
ghost use Rattle.std.specs.Prelude.{◌≡◌, IsSome, None};
ghost use Rattle.cap_records.specs.Rows.{columns_of, id_of_row, record_at};
ghost use Rattle.cap_c.specs.Handle.{Between, Keeps};
ghost use Rattle.cap_c.specs.Outputs.{OutputsBytes, OutputsFound, OutputsMade};
ghost use Rattle.cap_c.specs.RowOutputs.{StepsTo, column_bytes, column_output};

use crate::answered::tell_found;
use crate::change_info::{FieldValue, value_bytes, value_output};
use crate::iter_outputs::step_status;
use crate::output::write_bytes;
use crate::rows_handle::{RowsHandle, put, take};
use crate::status::{MISUSE, NOMEM, OK};
use cap_records::RowCursor;
use std::alloc::Global;

/// Goes to the next of the rows.
#[unsafe(no_mangle)]
pub extern "C" fn changecap_step(alloc: Global, rows: &mut RowsHandle) -> u32
    requires opened { IsSome rows.old.value }
    ensures stepped { Between rows.old.value rows.new.value (StepsTo result) }
{
    let mut cursor = take(alloc, rows);
    let is_row = cursor.step();
    put(rows, cursor);
    step_status(is_row)
}

/// Sets `id` to that of the row, or to 0 where it has a key.
#[unsafe(no_mangle)]
pub extern "C" fn changecap_row_id(alloc: Global, rows: &mut RowsHandle, id: &mut u64) -> u32
    requires opened { IsSome rows.old.value }
    ensures outputs { Keeps rows.old.value rows.new.value
        (λ cursor. OutputsFound (id_of_row cursor) result id.old id.new) }
{
    let cursor = take(alloc, rows);
    let status = tell_found(cursor.id(), id);
    put(rows, cursor);
    status
}

/// Sets `columns` to how many the row has.
#[unsafe(no_mangle)]
pub extern "C" fn changecap_columns(
    alloc: Global,
    rows: &mut RowsHandle,
    columns: &mut usize,
) -> u32
    requires opened { IsSome rows.old.value }
    ensures outputs { Keeps rows.old.value rows.new.value
        (λ cursor. OutputsFound (columns_of cursor) result columns.old columns.new) }
{
    let cursor = take(alloc, rows);
    let status = tell_found(cursor.columns(), columns);
    put(rows, cursor);
    status
}

/// Sets `value` to that of a column of the row.
#[unsafe(no_mangle)]
pub extern "C" fn changecap_column(
    alloc: Global,
    rows: &mut RowsHandle,
    column: usize,
    value: &mut FieldValue,
) -> u32
    requires opened { IsSome rows.old.value }
    ensures outputs { Keeps rows.old.value rows.new.value
        (λ cursor. OutputsFound (column_output cursor column) result value.old value.new) }
{
    let cursor = take(alloc, rows);
    let status = set_column(&cursor, column, value);
    put(rows, cursor);
    status
}

/// Writes the bytes of a TEXT or a BLOB of the row.
#[unsafe(no_mangle)]
pub extern "C" fn changecap_column_bytes(
    alloc: Global,
    rows: &mut RowsHandle,
    column: usize,
    out: &mut [u8],
    len: &mut usize,
) -> u32
    requires opened { IsSome rows.old.value }
    ensures outputs { Keeps rows.old.value rows.new.value
        (λ cursor. OutputsBytes (column_bytes cursor column) result out.old out.new len.old len.new) }
{
    let cursor = take(alloc, rows);
    let status = set_column_bytes(&cursor, column, out, len);
    put(rows, cursor);
    status
}

/// Writes the row as its record.
#[unsafe(no_mangle)]
pub extern "C" fn changecap_row(
    alloc: Global,
    rows: &mut RowsHandle,
    out: &mut [u8],
    len: &mut usize,
) -> u32
    requires opened { IsSome rows.old.value }
    ensures outputs { Keeps rows.old.value rows.new.value
        (λ cursor. OutputsMade (record_at cursor) result out.old out.new len.old len.new) }
{
    let cursor = take(alloc, rows);
    let status = set_record(alloc, &cursor, out, len);
    put(rows, cursor);
    status
}

/// Closes the rows, and frees what they have.
#[unsafe(no_mangle)]
pub extern "C" fn changecap_rows_close(alloc: Global, rows: &mut RowsHandle)
    requires opened { IsSome rows.old.value }
    ensures closed { rows.new.value ≡ None }
{
    drop(take(alloc, rows));
}

fn set_column(cursor: &RowCursor, column: usize, value: &mut FieldValue) -> u32
    ensures { OutputsFound (column_output cursor.now column) result value.old value.new }
{
    match cursor.value(column) {
        Some(found) => {
            *value = value_output(Some(found));
            OK
        }
        None => MISUSE,
    }
}

fn set_column_bytes(cursor: &RowCursor, column: usize, out: &mut [u8], len: &mut usize) -> u32
    ensures { OutputsBytes (column_bytes cursor.now column) result out.old out.new len.old len.new }
{
    match cursor.value(column) {
        Some(found) => write_bytes(value_bytes(Some(found)), out, len),
        None => MISUSE,
    }
}

// Where there is no row, that needs no memory.
fn set_record(alloc: Global, cursor: &RowCursor, out: &mut [u8], len: &mut usize) -> u32
    ensures { OutputsMade (record_at cursor.now) result out.old out.new len.old len.new }
{
    if cursor.columns().is_none() {
        return MISUSE;
    }
    match cursor.record(alloc) {
        Ok(Some(record)) => write_bytes(record.as_slice(), out, len),
        Ok(None) => MISUSE,
        Err(_) => NOMEM,
    }
}
