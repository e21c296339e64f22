//! What C holds of an iterator.
ghost use Rattle.std.specs.Coded.{coded_option};
ghost use Rattle.std.specs.Prelude.{◌≡◌, IsSome, None, Option, Some};
ghost use Rattle.cap_c.specs.Owns.{iter_row};
ghost use Rattle.cap_connection.specs.Iter.{IterState};

use crate::assert_send::assert_iter_send;
use crate::parts::Parts;
use cap_connection::BlobIter;
use std::alloc::Global;
use std::marker::Model;
use std::{mem, ptr};

/// A pointer that is nothing to C: to an iterator where the handle is open, and else null.
#[repr(C)]
#[derive(Drop)]
pub struct IterHandle {
    at: *mut u8,
    alloc: Global,
    pub ghost value: { Option IterState } by { coded_option iter_row.coded },
}

impl Model for IterHandle {
    ghost use Rattle.cap_c.specs.Owns.{iter_row, owns_if};

    ghost also_owns = { λ h. owns_if iter_row h.alloc h.at h.value };
}

/// Takes the iterator out of an open handle, which is closed until it is put back.
pub(crate) fn take(alloc: Global, handle: &mut IterHandle) -> Box<BlobIter>
    requires { IsSome handle.old.value }
    ensures value { handle.old.value ≡ Some result.value }
    ensures closed { handle.new.value ≡ None }
{
    into_parts(mem::replace(handle, closed(alloc))).into_box()
}

/// Puts the iterator into the handle.
pub(crate) fn put(handle: &mut IterHandle, it: Box<BlobIter>)
    requires { handle.old.value ≡ None }
    ensures { handle.new.value ≡ Some it.value }
{
    assert_iter_send(&it);
    *handle = of_parts(Parts::of(it));
}

fn into_parts(handle: IterHandle) -> Parts<BlobIter, Global>
    requires { IsSome handle.value }
    ensures { handle.value ≡ Some result.value }
{
    let IterHandle { at, alloc } = handle;
    Parts {
        ptr: at as *mut BlobIter,
        alloc,
    }
}

fn of_parts(parts: Parts<BlobIter, Global>) -> IterHandle
    ensures { result.value ≡ Some parts.value }
{
    let Parts { ptr, alloc } = parts;
    IterHandle {
        at: ptr as *mut u8,
        alloc,
    }
}

fn closed(alloc: Global) -> IterHandle
    ensures { result.value ≡ None }
{
    IterHandle {
        at: ptr::null_mut(),
        alloc,
    }
}
