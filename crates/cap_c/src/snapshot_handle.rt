//! What C holds of a snapshot.
ghost use Rattle.std.specs.Coded.{coded_option};
ghost use Rattle.std.specs.Global.{Global};
ghost use Rattle.std.specs.Prelude.{◌≡◌, IsSome, None, Option, Some};
ghost use Rattle.cap_c.specs.Handle.{OpensOn};
ghost use Rattle.cap_c.specs.Owns.{snapshot_row};
ghost use Rattle.cap_database.specs.Snapshot.{SnapshotState};

use crate::assert_send::assert_snapshot_send;
use crate::held::HeldSnapshot;
use crate::parts::Parts;
use crate::status::{NOMEM, OK};
use std::alloc::Global;
use std::marker::Model;
use std::{mem, ptr};

/// A pointer that is nothing to C: to a snapshot where the handle is open, and else null.
#[repr(C)]
#[derive(Drop)]
pub struct SnapshotHandle {
    at: *mut u8,
    alloc: Global,
    pub ghost value: { Option (SnapshotState Global) } by { coded_option snapshot_row.coded },
}

impl Model for SnapshotHandle {
    ghost use Rattle.cap_c.specs.Owns.{snapshot_row, owns_if};

    ghost also_owns = { λ h. owns_if snapshot_row h.alloc h.at h.value };
}

/// Opens a closed handle on this.
pub(crate) fn open(alloc: Global, handle: &mut SnapshotHandle, snapshot: HeldSnapshot) -> u32
    requires { handle.old.value ≡ None }
    ensures { OpensOn snapshot result handle.new.value }
{
    match Box::new(alloc, snapshot) {
        Ok(snapshot) => {
            put(handle, snapshot);
            OK
        }
        Err(_) => NOMEM,
    }
}

/// Takes the snapshot out of an open handle, which is closed until it is put back.
pub(crate) fn take(alloc: Global, handle: &mut SnapshotHandle) -> Box<HeldSnapshot>
    requires { IsSome handle.old.value }
    ensures value { handle.old.value ≡ Some result.value }
    ensures closed { handle.new.value ≡ None }
{
    into_parts(mem::replace(handle, closed(alloc))).into_box()
}

/// Puts the snapshot into the handle.
pub(crate) fn put(handle: &mut SnapshotHandle, snapshot: Box<HeldSnapshot>)
    requires { handle.old.value ≡ None }
    ensures { handle.new.value ≡ Some snapshot.value }
{
    assert_snapshot_send(&snapshot);
    *handle = of_parts(Parts::of(snapshot));
}

fn into_parts(handle: SnapshotHandle) -> Parts<HeldSnapshot, Global>
    requires { IsSome handle.value }
    ensures { handle.value ≡ Some result.value }
{
    let SnapshotHandle { at, alloc } = handle;
    Parts {
        ptr: at as *mut HeldSnapshot,
        alloc,
    }
}

fn of_parts(parts: Parts<HeldSnapshot, Global>) -> SnapshotHandle
    ensures { result.value ≡ Some parts.value }
{
    let Parts { ptr, alloc } = parts;
    SnapshotHandle {
        at: ptr as *mut u8,
        alloc,
    }
}

fn closed(alloc: Global) -> SnapshotHandle
    ensures { result.value ≡ None }
{
    SnapshotHandle {
        at: ptr::null_mut(),
        alloc,
    }
}
