//! What C holds of a transaction.
ghost use Rattle.std.specs.Coded.{coded_option};
ghost use Rattle.std.specs.Global.{Global};
ghost use Rattle.std.specs.Prelude.{◌≡◌, IsSome, None, Option, Some};
ghost use Rattle.cap_c.specs.Handle.{OpensOn};
ghost use Rattle.cap_c.specs.Owns.{transaction_row};
ghost use Rattle.cap_txn.specs.Transaction.{TxnState};

use crate::assert_send::assert_transaction_send;
use crate::held::HeldTransaction;
use crate::parts::Parts;
use crate::status::{NOMEM, OK};
use std::alloc::Global;
use std::marker::Model;
use std::{mem, ptr};

/// A pointer that is nothing to C: to a transaction where the handle is open, and else null.
#[repr(C)]
#[derive(Drop)]
pub struct TransactionHandle {
    at: *mut u8,
    alloc: Global,
    pub ghost value: { Option (TxnState Global) } by { coded_option transaction_row.coded },
}

impl Model for TransactionHandle {
    ghost use Rattle.cap_c.specs.Owns.{transaction_row, owns_if};

    ghost also_owns = { λ h. owns_if transaction_row h.alloc h.at h.value };
}

/// Opens a closed handle on this.
pub(crate) fn open(
    alloc: Global,
    handle: &mut TransactionHandle,
    transaction: HeldTransaction,
) -> u32
    requires { handle.old.value ≡ None }
    ensures { OpensOn transaction result handle.new.value }
{
    match Box::new(alloc, transaction) {
        Ok(transaction) => {
            put(handle, transaction);
            OK
        }
        Err(_) => NOMEM,
    }
}

/// Takes the transaction out of an open handle, which is closed until it is put back.
pub(crate) fn take(alloc: Global, handle: &mut TransactionHandle) -> Box<HeldTransaction>
    requires { IsSome handle.old.value }
    ensures value { handle.old.value ≡ Some result.value }
    ensures closed { handle.new.value ≡ None }
{
    into_parts(mem::replace(handle, closed(alloc))).into_box()
}

/// Puts the transaction into the handle.
pub(crate) fn put(handle: &mut TransactionHandle, transaction: Box<HeldTransaction>)
    requires { handle.old.value ≡ None }
    ensures { handle.new.value ≡ Some transaction.value }
{
    assert_transaction_send(&transaction);
    *handle = of_parts(Parts::of(transaction));
}

fn into_parts(handle: TransactionHandle) -> Parts<HeldTransaction, Global>
    requires { IsSome handle.value }
    ensures { handle.value ≡ Some result.value }
{
    let TransactionHandle { at, alloc } = handle;
    Parts {
        ptr: at as *mut HeldTransaction,
        alloc,
    }
}

fn of_parts(parts: Parts<HeldTransaction, Global>) -> TransactionHandle
    ensures { result.value ≡ Some parts.value }
{
    let Parts { ptr, alloc } = parts;
    TransactionHandle {
        at: ptr as *mut u8,
        alloc,
    }
}

fn closed(alloc: Global) -> TransactionHandle
    ensures { result.value ≡ None }
{
    TransactionHandle {
        at: ptr::null_mut(),
        alloc,
    }
}
