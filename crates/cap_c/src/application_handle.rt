//! What C holds of an application.
ghost use Rattle.std.specs.Coded.{coded_option};
ghost use Rattle.std.specs.Prelude.{◌≡◌, IsSome, None, Option, Some};
ghost use Rattle.cap_c.specs.Owns.{application_row};
ghost use Rattle.cap_connection.specs.Application.{ApplicationState};

use crate::assert_send::assert_application_send;
use crate::parts::Parts;
use cap_connection::Application;
use std::alloc::Global;
use std::marker::Model;
use std::{mem, ptr};

/// A pointer that is nothing to C: to an application where the handle is open, and else null.
#[repr(C)]
#[derive(Drop)]
pub struct ApplicationHandle {
    at: *mut u8,
    alloc: Global,
    pub ghost value: { Option ApplicationState } by { coded_option application_row.coded },
}

impl Model for ApplicationHandle {
    ghost use Rattle.cap_c.specs.Owns.{application_row, owns_if};

    ghost also_owns = { λ h. owns_if application_row h.alloc h.at h.value };
}

/// Takes the application out of an open handle, which is closed until it is put back.
pub(crate) fn take(alloc: Global, handle: &mut ApplicationHandle) -> Box<Application>
    requires { IsSome handle.old.value }
    ensures value { handle.old.value ≡ Some result.value }
    ensures closed { handle.new.value ≡ None }
{
    into_parts(mem::replace(handle, closed(alloc))).into_box()
}

/// Puts the application into the handle.
pub(crate) fn put(handle: &mut ApplicationHandle, application: Box<Application>)
    requires { handle.old.value ≡ None }
    ensures { handle.new.value ≡ Some application.value }
{
    assert_application_send(&application);
    *handle = of_parts(Parts::of(application));
}

fn into_parts(handle: ApplicationHandle) -> Parts<Application, Global>
    requires { IsSome handle.value }
    ensures { handle.value ≡ Some result.value }
{
    let ApplicationHandle { at, alloc } = handle;
    Parts {
        ptr: at as *mut Application,
        alloc,
    }
}

fn of_parts(parts: Parts<Application, Global>) -> ApplicationHandle
    ensures { result.value ≡ Some parts.value }
{
    let Parts { ptr, alloc } = parts;
    ApplicationHandle {
        at: ptr as *mut u8,
        alloc,
    }
}

fn closed(alloc: Global) -> ApplicationHandle
    ensures { result.value ≡ None }
{
    ApplicationHandle {
        at: ptr::null_mut(),
        alloc,
    }
}
