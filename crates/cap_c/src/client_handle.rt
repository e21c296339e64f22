//! What C holds of a client.
ghost use Rattle.std.specs.Coded.{coded_option};
ghost use Rattle.std.specs.Prelude.{◌≡◌, IsSome, None, Option, Some};
ghost use Rattle.cap_c.specs.Owns.{client_row};
ghost use Rattle.cap_connection.specs.Connection.{ConnectionState};

use crate::assert_send::assert_client_send;
use crate::parts::Parts;
use cap_connection::Connection;
use std::alloc::Global;
use std::marker::Model;
use std::{mem, ptr};

/// A pointer that is nothing to C: to a client where the handle is open, and else null.
#[repr(C)]
#[derive(Drop)]
pub struct ClientHandle {
    at: *mut u8,
    alloc: Global,
    pub ghost value: { Option ConnectionState } by { coded_option client_row.coded },
}

impl Model for ClientHandle {
    ghost use Rattle.cap_c.specs.Owns.{client_row, owns_if};

    ghost also_owns = { λ h. owns_if client_row h.alloc h.at h.value };
}

/// Takes the client out of an open handle, which is closed until it is put back.
pub(crate) fn take(alloc: Global, handle: &mut ClientHandle) -> Box<Connection>
    requires { IsSome handle.old.value }
    ensures value { handle.old.value ≡ Some result.value }
    ensures closed { handle.new.value ≡ None }
{
    into_parts(mem::replace(handle, closed(alloc))).into_box()
}

/// Puts the client into the handle.
pub(crate) fn put(handle: &mut ClientHandle, connection: Box<Connection>)
    requires { handle.old.value ≡ None }
    ensures { handle.new.value ≡ Some connection.value }
{
    assert_client_send(&connection);
    *handle = of_parts(Parts::of(connection));
}

fn into_parts(handle: ClientHandle) -> Parts<Connection, Global>
    requires { IsSome handle.value }
    ensures { handle.value ≡ Some result.value }
{
    let ClientHandle { at, alloc } = handle;
    Parts {
        ptr: at as *mut Connection,
        alloc,
    }
}

fn of_parts(parts: Parts<Connection, Global>) -> ClientHandle
    ensures { result.value ≡ Some parts.value }
{
    let Parts { ptr, alloc } = parts;
    ClientHandle {
        at: ptr as *mut u8,
        alloc,
    }
}

fn closed(alloc: Global) -> ClientHandle
    ensures { result.value ≡ None }
{
    ClientHandle {
        at: ptr::null_mut(),
        alloc,
    }
}
