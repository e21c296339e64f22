//! The calls on a decoder that gets a blob in pieces.
ghost use Rattle.std.specs.Prelude.{◌≡◌, [], IsSome, IsSomeAnd, None, Result};
ghost use Rattle.cap_value.specs.declared.memory.Fault.{Fault as Stop};
ghost use Rattle.cap_field.specs.declared.fault.BlobFault.{BlobFault as Wrong};
ghost use Rattle.cap_connection.specs.Decoder.{Feeds};
ghost use Rattle.cap_connection.specs.Iter.{iter_at};
ghost use Rattle.cap_c.specs.Handle.{Between, Opens, OpensOn};
ghost use Rattle.cap_c.specs.Answered.{TellsPiece};

use crate::answered::tell_piece;
use crate::decoder_handle::{self, DecoderHandle, put, take};
use crate::fault::PlacedFault;
use crate::iter_handle::{self, IterHandle};
use crate::status::{MALFORMED, NOMEM, OK};
use cap_connection::PieceDecoder;
use cap_value::Fault;
use std::alloc::Global;

/// Opens a decoder without bytes.
#[unsafe(no_mangle)]
pub extern "C" fn changecap_decoder_open(alloc: Global, handle: &mut DecoderHandle) -> u32
    requires closed { handle.old.value ≡ None }
    ensures opened { OpensOn [] result handle.new.value }
{
    decoder_handle::open(alloc, handle, PieceDecoder::new(alloc))
}

/// Takes the next piece of the blob.
#[unsafe(no_mangle)]
pub extern "C" fn changecap_decoder_feed(
    alloc: Global,
    handle: &mut DecoderHandle,
    piece: &[u8],
    fault: &mut PlacedFault,
) -> u32
    requires opened { IsSome handle.old.value }
    ensures fed { Between handle.old.value handle.new.value
        (λ old new. (answer : Result (Unit {0}) (Stop Wrong))
        × Feeds piece.now old new answer × TellsPiece answer result fault.old fault.new) }
{
    let mut decoder = take(alloc, handle);
    let answer = decoder.feed(piece);
    put(handle, decoder);
    tell_piece(answer, fault)
}

/// Ends the decoder, and opens an iterator over the changes of all the pieces, before the first.
#[unsafe(no_mangle)]
pub extern "C" fn changecap_decoder_finish(
    alloc: Global,
    handle: &mut DecoderHandle,
    iter: &mut IterHandle,
    fault: &mut PlacedFault,
) -> u32
    requires opened { IsSome handle.old.value }
    requires closed { iter.old.value ≡ None }
    ensures ended { handle.new.value ≡ None }
    // The iterator goes over what the pieces spell.
    ensures opened { IsSomeAnd handle.old.value
        (λ pieces. Opens (iter_at pieces) result iter.new.value fault.old fault.new) }
{
    let decoder = take(alloc, handle);
    match Box::into_inner(decoder).finish(alloc) {
        Ok(it) => match Box::new(alloc, it) {
            Ok(it) => {
                iter_handle::put(iter, it);
                OK
            }
            Err(_) => NOMEM,
        },
        Err(Fault::Refused(wrong)) => {
            *fault = PlacedFault::of(wrong);
            MALFORMED
        }
        Err(Fault::OutOfMemory) => NOMEM,
    }
}

/// Ends the decoder, and frees what it has.
#[unsafe(no_mangle)]
pub extern "C" fn changecap_decoder_close(alloc: Global, handle: &mut DecoderHandle)
    requires opened { IsSome handle.old.value }
    ensures closed { handle.new.value ≡ None }
{
    drop(take(alloc, handle));
}
