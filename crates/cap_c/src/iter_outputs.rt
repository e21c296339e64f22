//! The outputs of the calls on an iterator, by the change at which it stands.
ghost use Rattle.std.specs.Prelude.{◌≡◌};
ghost use Rattle.cap_connection.specs.Iter.{new_record_of, old_record_of, table_of};
ghost use Rattle.cap_c.specs.IterOutputs.{info_of, key_output, new_bytes, new_output, old_bytes, old_output};
ghost use Rattle.cap_c.specs.IterOutputs.{NotesBy, OutputsBuffer, step_status};
ghost use Rattle.cap_c.specs.Outputs.{OutputsBytes, OutputsFound, OutputsMade};

use crate::change_info::{ChangeInfo, FieldValue, value_bytes, value_output};
use crate::output::write_bytes;
use crate::status::{DONE, MISUSE, NOMEM, OK, PATCHSET, ROW};
use cap_apply::Answer;
use cap_codec::KeyFlags;
use cap_connection::BlobIter;
use std::alloc::Global;

/// Whether there is a next change or row.
pub(crate) fn step_status(is_row: bool) -> u32
    ensures { result ≡ step_status is_row }
{
    if is_row { ROW } else { DONE }
}

pub(crate) fn set_info(it: &BlobIter, info: &mut ChangeInfo) -> u32
    ensures { OutputsFound (info_of it.now) result info.old info.new }
{
    match it.head() {
        Some(head) => {
            *info = ChangeInfo {
                op: u32::from(head.operation.byte()),
                indirect: u32::from(head.indirect),
                patchset: u32::from(it.is_patchset()),
                columns: it.columns(),
            };
            OK
        }
        None => MISUSE,
    }
}

pub(crate) fn set_table(it: &BlobIter, out: &mut [u8], len: &mut usize) -> u32
    ensures { OutputsBytes (table_of it.now) result out.old out.new len.old len.new }
{
    match it.table() {
        Some(name) => write_bytes(name.as_str().as_bytes(), out, len),
        None => MISUSE,
    }
}

pub(crate) fn set_key(it: &BlobIter, column: usize, is_key: &mut u32) -> u32
    ensures { OutputsFound (key_output it.now column) result is_key.old is_key.new }
{
    if column < it.columns() {
        *is_key = u32::from(it.is_key(column));
        OK
    } else {
        MISUSE
    }
}

pub(crate) fn set_old(it: &BlobIter, column: usize, value: &mut FieldValue) -> u32
    ensures { OutputsFound (old_output it.now column) result value.old value.new }
{
    if column < it.columns() {
        *value = value_output(it.old(column));
        OK
    } else {
        MISUSE
    }
}

pub(crate) fn set_new(it: &BlobIter, column: usize, value: &mut FieldValue) -> u32
    ensures { OutputsFound (new_output it.now column) result value.old value.new }
{
    if column < it.columns() {
        *value = value_output(it.new_value(column));
        OK
    } else {
        MISUSE
    }
}

pub(crate) fn set_old_bytes(it: &BlobIter, column: usize, out: &mut [u8], len: &mut usize) -> u32
    ensures { OutputsBytes (old_bytes it.now column) result out.old out.new len.old len.new }
{
    if column < it.columns() {
        write_bytes(value_bytes(it.old(column)), out, len)
    } else {
        MISUSE
    }
}

pub(crate) fn set_new_bytes(it: &BlobIter, column: usize, out: &mut [u8], len: &mut usize) -> u32
    ensures { OutputsBytes (new_bytes it.now column) result out.old out.new len.old len.new }
{
    if column < it.columns() {
        write_bytes(value_bytes(it.new_value(column)), out, len)
    } else {
        MISUSE
    }
}

// Where there is no change, that needs no memory; so it is of the next one.
pub(crate) fn set_old_record(alloc: Global, it: &BlobIter, out: &mut [u8], len: &mut usize) -> u32
    ensures { OutputsMade (old_record_of it.now) result out.old out.new len.old len.new }
{
    if !it.is_at_change() {
        return MISUSE;
    }
    match it.old_record(alloc) {
        Ok(Some(record)) => write_bytes(record.as_slice(), out, len),
        Ok(None) => MISUSE,
        Err(_) => NOMEM,
    }
}

pub(crate) fn set_new_record(alloc: Global, it: &BlobIter, out: &mut [u8], len: &mut usize) -> u32
    ensures { OutputsMade (new_record_of it.now) result out.old out.new len.old len.new }
{
    if !it.is_at_change() {
        return MISUSE;
    }
    match it.new_record(alloc) {
        Ok(Some(record)) => write_bytes(record.as_slice(), out, len),
        Ok(None) => MISUSE,
        Err(_) => NOMEM,
    }
}

pub(crate) fn note(it: &mut BlobIter, answer: Option<Answer>) -> u32
    ensures { NotesBy answer it.old it.new result }
{
    let Some(answer) = answer else {
        return MISUSE;
    };
    match it.note(answer) {
        Ok(true) => OK,
        Ok(false) => MISUSE,
        Err(_) => NOMEM,
    }
}

pub(crate) fn set_buffer(
    alloc: Global,
    it: &BlobIter,
    key_flags: Option<KeyFlags>,
    out: &mut [u8],
    len: &mut usize,
) -> u32
    ensures { OutputsBuffer key_flags it.now result out.old out.new len.old len.new }
{
    let Some(key_flags) = key_flags else {
        return MISUSE;
    };
    if it.is_patchset() {
        return PATCHSET;
    }
    match it.buffer(alloc, key_flags) {
        Ok(Some(buffer)) => write_bytes(buffer.as_slice(), out, len),
        Ok(None) => PATCHSET,
        Err(_) => NOMEM,
    }
}
