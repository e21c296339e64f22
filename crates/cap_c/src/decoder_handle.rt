//! What C holds of a decoder.
ghost use Rattle.std.specs.Coded.{coded_option};
ghost use Rattle.std.specs.Prelude.{◌≡◌, ℕ, IsSome, List, None, Option, Some};
ghost use Rattle.cap_c.specs.Handle.{OpensOn};
ghost use Rattle.cap_c.specs.Owns.{decoder_row};

use crate::assert_send::assert_decoder_send;
use crate::parts::Parts;
use crate::status::{NOMEM, OK};
use cap_connection::PieceDecoder;
use std::alloc::Global;
use std::marker::Model;
use std::{mem, ptr};

/// A pointer that is nothing to C: to a decoder where the handle is open, and else null.
#[repr(C)]
#[derive(Drop)]
pub struct DecoderHandle {
    at: *mut u8,
    alloc: Global,
    pub ghost value: { Option (List ℕ) } by { coded_option decoder_row.coded },
}

impl Model for DecoderHandle {
    ghost use Rattle.cap_c.specs.Owns.{decoder_row, owns_if};

    ghost also_owns = { λ h. owns_if decoder_row h.alloc h.at h.value };
}

/// Opens a closed handle on this.
pub(crate) fn open(alloc: Global, handle: &mut DecoderHandle, decoder: PieceDecoder) -> u32
    requires { handle.old.value ≡ None }
    ensures { OpensOn decoder result handle.new.value }
{
    match Box::new(alloc, decoder) {
        Ok(decoder) => {
            put(handle, decoder);
            OK
        }
        Err(_) => NOMEM,
    }
}

/// Takes the decoder out of an open handle, which is closed until it is put back.
pub(crate) fn take(alloc: Global, handle: &mut DecoderHandle) -> Box<PieceDecoder>
    requires { IsSome handle.old.value }
    ensures value { handle.old.value ≡ Some result.value }
    ensures closed { handle.new.value ≡ None }
{
    into_parts(mem::replace(handle, closed(alloc))).into_box()
}

/// Puts the decoder into the handle.
pub(crate) fn put(handle: &mut DecoderHandle, decoder: Box<PieceDecoder>)
    requires { handle.old.value ≡ None }
    ensures { handle.new.value ≡ Some decoder.value }
{
    assert_decoder_send(&decoder);
    *handle = of_parts(Parts::of(decoder));
}

fn into_parts(handle: DecoderHandle) -> Parts<PieceDecoder, Global>
    requires { IsSome handle.value }
    ensures { handle.value ≡ Some result.value }
{
    let DecoderHandle { at, alloc } = handle;
    Parts {
        ptr: at as *mut PieceDecoder,
        alloc,
    }
}

fn of_parts(parts: Parts<PieceDecoder, Global>) -> DecoderHandle
    ensures { result.value ≡ Some parts.value }
{
    let Parts { ptr, alloc } = parts;
    DecoderHandle {
        at: ptr as *mut u8,
        alloc,
    }
}

fn closed(alloc: Global) -> DecoderHandle
    ensures { result.value ≡ None }
{
    DecoderHandle {
        at: ptr::null_mut(),
        alloc,
    }
}
