//! What C holds of a capture.
ghost use Rattle.std.specs.Coded.{coded_option};
ghost use Rattle.std.specs.Global.{Global};
ghost use Rattle.std.specs.Prelude.{◌≡◌, IsSome, None, Option, Some};
ghost use Rattle.cap_c.specs.Owns.{capture_row};
ghost use Rattle.cap_core.specs.Capture.{CaptureState};

use crate::assert_send::assert_capture_send;
use crate::held::HeldCapture;
use crate::parts::Parts;
use std::alloc::Global;
use std::marker::Model;
use std::{mem, ptr};

/// A pointer that is nothing to C: to a capture where the handle is open, and else null.
#[repr(C)]
#[derive(Drop)]
pub struct CaptureHandle {
    at: *mut u8,
    alloc: Global,
    pub ghost value: { Option (CaptureState Global) } by { coded_option capture_row.coded },
}

impl Model for CaptureHandle {
    ghost use Rattle.cap_c.specs.Owns.{capture_row, owns_if};

    ghost also_owns = { λ h. owns_if capture_row h.alloc h.at h.value };
}

/// Takes the capture out of an open handle, which is closed until it is put back.
pub(crate) fn take(alloc: Global, handle: &mut CaptureHandle) -> Box<HeldCapture>
    requires { IsSome handle.old.value }
    ensures value { handle.old.value ≡ Some result.value }
    ensures closed { handle.new.value ≡ None }
{
    into_parts(mem::replace(handle, closed(alloc))).into_box()
}

/// Puts the capture into the handle.
pub(crate) fn put(handle: &mut CaptureHandle, capture: Box<HeldCapture>)
    requires { handle.old.value ≡ None }
    ensures { handle.new.value ≡ Some capture.value }
{
    assert_capture_send(&capture);
    *handle = of_parts(Parts::of(capture));
}

fn into_parts(handle: CaptureHandle) -> Parts<HeldCapture, Global>
    requires { IsSome handle.value }
    ensures { handle.value ≡ Some result.value }
{
    let CaptureHandle { at, alloc } = handle;
    Parts {
        ptr: at as *mut HeldCapture,
        alloc,
    }
}

fn of_parts(parts: Parts<HeldCapture, Global>) -> CaptureHandle
    ensures { result.value ≡ Some parts.value }
{
    let Parts { ptr, alloc } = parts;
    CaptureHandle {
        at: ptr as *mut u8,
        alloc,
    }
}

fn closed(alloc: Global) -> CaptureHandle
    ensures { result.value ≡ None }
{
    CaptureHandle {
        at: ptr::null_mut(),
        alloc,
    }
}
