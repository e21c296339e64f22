//! What C holds of rows.
ghost use Rattle.std.specs.Coded.{coded_option};
ghost use Rattle.std.specs.Prelude.{◌≡◌, IsSome, None, Option, Some};
ghost use Rattle.cap_c.specs.Handle.{OpensOn};
ghost use Rattle.cap_c.specs.Owns.{rows_row};
ghost use Rattle.cap_records.specs.Rows.{RowCursorState};

use crate::assert_send::assert_rows_send;
use crate::parts::Parts;
use crate::status::{NOMEM, OK};
use cap_records::RowCursor;
use std::alloc::Global;
use std::marker::Model;
use std::{mem, ptr};

/// A pointer that is nothing to C: to the rows where the handle is open, and else null.
#[repr(C)]
#[derive(Drop)]
pub struct RowsHandle {
    at: *mut u8,
    alloc: Global,
    pub ghost value: { Option RowCursorState } by { coded_option rows_row.coded },
}

impl Model for RowsHandle {
    ghost use Rattle.cap_c.specs.Owns.{rows_row, owns_if};

    ghost also_owns = { λ h. owns_if rows_row h.alloc h.at h.value };
}

/// Opens a closed handle on this.
pub(crate) fn open(alloc: Global, handle: &mut RowsHandle, cursor: RowCursor) -> u32
    requires { handle.old.value ≡ None }
    ensures { OpensOn cursor result handle.new.value }
{
    match Box::new(alloc, cursor) {
        Ok(cursor) => {
            put(handle, cursor);
            OK
        }
        Err(_) => NOMEM,
    }
}

/// Takes the rows out of an open handle, which is closed until it is put back.
pub(crate) fn take(alloc: Global, handle: &mut RowsHandle) -> Box<RowCursor>
    requires { IsSome handle.old.value }
    ensures value { handle.old.value ≡ Some result.value }
    ensures closed { handle.new.value ≡ None }
{
    into_parts(mem::replace(handle, closed(alloc))).into_box()
}

/// Puts the rows into the handle.
pub(crate) fn put(handle: &mut RowsHandle, cursor: Box<RowCursor>)
    requires { handle.old.value ≡ None }
    ensures { handle.new.value ≡ Some cursor.value }
{
    assert_rows_send(&cursor);
    *handle = of_parts(Parts::of(cursor));
}

fn into_parts(handle: RowsHandle) -> Parts<RowCursor, Global>
    requires { IsSome handle.value }
    ensures { handle.value ≡ Some result.value }
{
    let RowsHandle { at, alloc } = handle;
    Parts {
        ptr: at as *mut RowCursor,
        alloc,
    }
}

fn of_parts(parts: Parts<RowCursor, Global>) -> RowsHandle
    ensures { result.value ≡ Some parts.value }
{
    let Parts { ptr, alloc } = parts;
    RowsHandle {
        at: ptr as *mut u8,
        alloc,
    }
}

fn closed(alloc: Global) -> RowsHandle
    ensures { result.value ≡ None }
{
    RowsHandle {
        at: ptr::null_mut(),
        alloc,
    }
}
