//! What C holds of a batch.
ghost use Rattle.std.specs.Coded.{coded_option};
ghost use Rattle.std.specs.Global.{Global};
ghost use Rattle.std.specs.Prelude.{◌≡◌, IsSome, None, Option, Some};
ghost use Rattle.cap_c.specs.Handle.{OpensOn};
ghost use Rattle.cap_c.specs.Owns.{batch_row};
ghost use Rattle.cap_txn.specs.Batch.{BatchState};

use crate::assert_send::assert_batch_send;
use crate::held::HeldBatch;
use crate::parts::Parts;
use crate::status::{NOMEM, OK};
use std::alloc::Global;
use std::marker::Model;
use std::{mem, ptr};

/// A pointer that is nothing to C: to a batch where the handle is open, and else null.
#[repr(C)]
#[derive(Drop)]
pub struct BatchHandle {
    at: *mut u8,
    alloc: Global,
    pub ghost value: { Option (BatchState Global) } by { coded_option batch_row.coded },
}

impl Model for BatchHandle {
    ghost use Rattle.cap_c.specs.Owns.{batch_row, owns_if};

    ghost also_owns = { λ h. owns_if batch_row h.alloc h.at h.value };
}

/// Opens a closed handle on this.
pub(crate) fn open(alloc: Global, handle: &mut BatchHandle, batch: HeldBatch) -> u32
    requires { handle.old.value ≡ None }
    ensures { OpensOn batch result handle.new.value }
{
    match Box::new(alloc, batch) {
        Ok(batch) => {
            put(handle, batch);
            OK
        }
        Err(_) => NOMEM,
    }
}

/// Takes the batch out of an open handle, which is closed until it is put back.
pub(crate) fn take(alloc: Global, handle: &mut BatchHandle) -> Box<HeldBatch>
    requires { IsSome handle.old.value }
    ensures value { handle.old.value ≡ Some result.value }
    ensures closed { handle.new.value ≡ None }
{
    into_parts(mem::replace(handle, closed(alloc))).into_box()
}

/// Puts the batch into the handle.
pub(crate) fn put(handle: &mut BatchHandle, batch: Box<HeldBatch>)
    requires { handle.old.value ≡ None }
    ensures { handle.new.value ≡ Some batch.value }
{
    assert_batch_send(&batch);
    *handle = of_parts(Parts::of(batch));
}

fn into_parts(handle: BatchHandle) -> Parts<HeldBatch, Global>
    requires { IsSome handle.value }
    ensures { handle.value ≡ Some result.value }
{
    let BatchHandle { at, alloc } = handle;
    Parts {
        ptr: at as *mut HeldBatch,
        alloc,
    }
}

fn of_parts(parts: Parts<HeldBatch, Global>) -> BatchHandle
    ensures { result.value ≡ Some parts.value }
{
    let Parts { ptr, alloc } = parts;
    BatchHandle {
        at: ptr as *mut u8,
        alloc,
    }
}

fn closed(alloc: Global) -> BatchHandle
    ensures { result.value ≡ None }
{
    BatchHandle {
        at: ptr::null_mut(),
        alloc,
    }
}
