//! The calls on an iterator over the changes of a blob, as `sqlite3changeset_start` and what follows it.
ghost use Rattle.std.specs.Prelude.{◌≡◌, Bool, IfSome, IsSome, None};
ghost use Rattle.cap_codec.specs.Spelling.{Spells};
ghost use Rattle.cap_connection.specs.Iter.{Steps, iter_at, new_record_of, old_record_of, table_of};
ghost use Rattle.cap_c.specs.Handle.{Between, Keeps, Opens};
ghost use Rattle.cap_c.specs.IterOutputs.{info_of, key_output, new_bytes, new_output, old_bytes, old_output};
ghost use Rattle.cap_c.specs.IterOutputs.{NotesBy, OutputsBuffer, step_status};
ghost use Rattle.cap_c.specs.Numbers.{buffered_answer_of, key_flags_of};
ghost use Rattle.cap_c.specs.Outputs.{OutputsBytes, OutputsFound, OutputsMade};

use crate::change_info::{ChangeInfo, FieldValue};
use crate::fault::PlacedFault;
use crate::iter_handle::{IterHandle, put, take};
use crate::iter_outputs::{
    note, set_buffer, set_info, set_key, set_new, set_new_bytes, set_new_record, set_old,
    set_old_bytes, set_old_record, set_table, step_status,
};
use crate::numbers::{buffered_answer_of, key_flags_of};
use crate::status::{MALFORMED, NOMEM, OK};
use cap_connection::BlobIter;
use cap_value::Fault;
use std::alloc::Global;

/// Opens an iterator over the changes of a blob, before the first. The whole blob is read.
#[unsafe(no_mangle)]
pub extern "C" fn changecap_iter_open(
    alloc: Global,
    blob: &[u8],
    handle: &mut IterHandle,
    fault: &mut PlacedFault,
) -> u32
    requires closed { handle.old.value ≡ None }
    ensures opened { Opens (iter_at blob.now) result handle.new.value fault.old fault.new }
    // It goes over what the bytes spell.
    ensures spelled { IfSome handle.new.value (λ it. Spells it.contents blob.now) }
{
    match BlobIter::open(alloc, blob) {
        Ok(it) => match Box::new(alloc, it) {
            Ok(it) => {
                put(handle, it);
                OK
            }
            Err(_) => NOMEM,
        },
        Err(Fault::Refused(wrong)) => {
            *fault = PlacedFault::of(wrong);
            MALFORMED
        }
        Err(Fault::OutOfMemory) => NOMEM,
    }
}

/// Goes to the next change.
#[unsafe(no_mangle)]
pub extern "C" fn changecap_iter_next(alloc: Global, handle: &mut IterHandle) -> u32
    requires opened { IsSome handle.old.value }
    ensures stepped { Between handle.old.value handle.new.value
        (λ old new. (is_row : Bool) × Steps old new is_row × (result ≡ step_status is_row)) }
{
    let mut it = take(alloc, handle);
    let is_row = it.step();
    put(handle, it);
    step_status(is_row)
}

/// Sets `info` to what the change is.
#[unsafe(no_mangle)]
pub extern "C" fn changecap_iter_op(
    alloc: Global,
    handle: &mut IterHandle,
    info: &mut ChangeInfo,
) -> u32
    requires opened { IsSome handle.old.value }
    ensures outputs { Keeps handle.old.value handle.new.value
        (λ it. OutputsFound (info_of it) result info.old info.new) }
{
    let it = take(alloc, handle);
    let status = set_info(&it, info);
    put(handle, it);
    status
}

/// Writes the name of the change's table.
#[unsafe(no_mangle)]
pub extern "C" fn changecap_iter_table(
    alloc: Global,
    handle: &mut IterHandle,
    out: &mut [u8],
    len: &mut usize,
) -> u32
    requires opened { IsSome handle.old.value }
    ensures outputs { Keeps handle.old.value handle.new.value
        (λ it. OutputsBytes (table_of it) result out.old out.new len.old len.new) }
{
    let it = take(alloc, handle);
    let status = set_table(&it, out, len);
    put(handle, it);
    status
}

/// Sets `is_key` to whether a column of the change's table is in its key.
#[unsafe(no_mangle)]
pub extern "C" fn changecap_iter_key(
    alloc: Global,
    handle: &mut IterHandle,
    column: usize,
    is_key: &mut u32,
) -> u32
    requires opened { IsSome handle.old.value }
    ensures outputs { Keeps handle.old.value handle.new.value
        (λ it. OutputsFound (key_output it column) result is_key.old is_key.new) }
{
    let it = take(alloc, handle);
    let status = set_key(&it, column, is_key);
    put(handle, it);
    status
}

/// Sets `value` to that of a column before the change.
#[unsafe(no_mangle)]
pub extern "C" fn changecap_iter_old(
    alloc: Global,
    handle: &mut IterHandle,
    column: usize,
    value: &mut FieldValue,
) -> u32
    requires opened { IsSome handle.old.value }
    ensures outputs { Keeps handle.old.value handle.new.value
        (λ it. OutputsFound (old_output it column) result value.old value.new) }
{
    let it = take(alloc, handle);
    let status = set_old(&it, column, value);
    put(handle, it);
    status
}

/// Sets `value` to that of a column after the change.
#[unsafe(no_mangle)]
pub extern "C" fn changecap_iter_new(
    alloc: Global,
    handle: &mut IterHandle,
    column: usize,
    value: &mut FieldValue,
) -> u32
    requires opened { IsSome handle.old.value }
    ensures outputs { Keeps handle.old.value handle.new.value
        (λ it. OutputsFound (new_output it column) result value.old value.new) }
{
    let it = take(alloc, handle);
    let status = set_new(&it, column, value);
    put(handle, it);
    status
}

/// Writes the bytes of a text or a blob that a column was before the change.
#[unsafe(no_mangle)]
pub extern "C" fn changecap_iter_old_bytes(
    alloc: Global,
    handle: &mut IterHandle,
    column: usize,
    out: &mut [u8],
    len: &mut usize,
) -> u32
    requires opened { IsSome handle.old.value }
    ensures outputs { Keeps handle.old.value handle.new.value
        (λ it. OutputsBytes (old_bytes it column) result out.old out.new len.old len.new) }
{
    let it = take(alloc, handle);
    let status = set_old_bytes(&it, column, out, len);
    put(handle, it);
    status
}

/// Writes the bytes of a text or a blob that a column is after the change.
#[unsafe(no_mangle)]
pub extern "C" fn changecap_iter_new_bytes(
    alloc: Global,
    handle: &mut IterHandle,
    column: usize,
    out: &mut [u8],
    len: &mut usize,
) -> u32
    requires opened { IsSome handle.old.value }
    ensures outputs { Keeps handle.old.value handle.new.value
        (λ it. OutputsBytes (new_bytes it column) result out.old out.new len.old len.new) }
{
    let it = take(alloc, handle);
    let status = set_new_bytes(&it, column, out, len);
    put(handle, it);
    status
}

/// Writes the record of the row before the change: a field for each column, undefined where it has no value.
#[unsafe(no_mangle)]
pub extern "C" fn changecap_iter_old_record(
    alloc: Global,
    handle: &mut IterHandle,
    out: &mut [u8],
    len: &mut usize,
) -> u32
    requires opened { IsSome handle.old.value }
    ensures outputs { Keeps handle.old.value handle.new.value
        (λ it. OutputsMade (old_record_of it) result out.old out.new len.old len.new) }
{
    let it = take(alloc, handle);
    let status = set_old_record(alloc, &it, out, len);
    put(handle, it);
    status
}

/// Writes the record of the row after the change.
#[unsafe(no_mangle)]
pub extern "C" fn changecap_iter_new_record(
    alloc: Global,
    handle: &mut IterHandle,
    out: &mut [u8],
    len: &mut usize,
) -> u32
    requires opened { IsSome handle.old.value }
    ensures outputs { Keeps handle.old.value handle.new.value
        (λ it. OutputsMade (new_record_of it) result out.old out.new len.old len.new) }
{
    let it = take(alloc, handle);
    let status = set_new_record(alloc, &it, out, len);
    put(handle, it);
    status
}

/// Notes that the change met a conflict with this answer, in an application elsewhere.
#[unsafe(no_mangle)]
pub extern "C" fn changecap_iter_answer(alloc: Global, handle: &mut IterHandle, answer: u32) -> u32
    requires opened { IsSome handle.old.value }
    ensures noted { Between handle.old.value handle.new.value
        (λ old new. NotesBy (buffered_answer_of answer) old new result) }
{
    let mut it = take(alloc, handle);
    let status = note(&mut it, buffered_answer_of(answer));
    put(handle, it);
    status
}

/// Writes the buffer of the application in which the changes met their conflicts.
#[unsafe(no_mangle)]
pub extern "C" fn changecap_iter_buffer(
    alloc: Global,
    handle: &mut IterHandle,
    key_flags: u32,
    out: &mut [u8],
    len: &mut usize,
) -> u32
    requires opened { IsSome handle.old.value }
    ensures outputs { Keeps handle.old.value handle.new.value
        (λ it. OutputsBuffer (key_flags_of key_flags) it result out.old out.new len.old len.new) }
{
    let it = take(alloc, handle);
    let status = set_buffer(alloc, &it, key_flags_of(key_flags), out, len);
    put(handle, it);
    status
}

/// Closes the iterator, and frees what it has.
#[unsafe(no_mangle)]
pub extern "C" fn changecap_iter_close(alloc: Global, handle: &mut IterHandle)
    requires opened { IsSome handle.old.value }
    ensures closed { handle.new.value ≡ None }
{
    drop(take(alloc, handle));
}
