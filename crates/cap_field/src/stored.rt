//! Reading values in place, from bytes that are known to be those of a record.

ghost use Rattle.std.specs.Prelude.{◌≡◌, Ok, IsOk};
ghost use Rattle.cap_field.specs.FieldReading.{sized_at, text_at, content_at, value_at};
ghost use Rattle.cap_field.specs.FieldReading.{value_of};

use crate::ValueRef;
use crate::field::{BLOB, INTEGER, TEXT};
use crate::reading::take_varint;
use cap_value::AllocHandle;

#[tactic(auto, unfolding(crate::specs::FieldReading::sized_at))]
#[inline(always)]
fn stored_sized(bytes: &[u8]) -> (&[u8], &[u8])
    requires { IsOk (sized_at 0 0 bytes.now) }
    ensures { sized_at 0 0 bytes.now ≡ Ok (result.0.now, result.1.now) }
{
    match take_varint(0, bytes) {
        Ok((count, rest)) => rest.split_at(count),
        Err(_) => unreachable!(),
    }
}

#[tactic(auto, using(crate::proofs::Spelled::utf8), unfolding(crate::specs::FieldReading::text_at))]
#[inline(always)]
fn stored_text(bytes: &[u8]) -> (&str, &[u8])
    requires { IsOk (text_at 0 0 bytes.now) }
    ensures { text_at 0 0 bytes.now ≡ Ok (result.0.now, result.1.now) }
{
    let (text, rest) = stored_sized(bytes);
    (unsafe { std::str::from_utf8_unchecked(text) }, rest)
}

#[tactic(auto, unfolding(crate::specs::FieldReading::content_at))]
#[inline(always)]
fn stored_content<'a, A: AllocHandle>(kind: u8, bytes: &'a [u8]) -> (ValueRef<'a>, &'a [u8])
    requires { IsOk (content_at {A = A} 0 0 kind bytes.now) }
    ensures { content_at {A = A} 0 0 kind bytes.now ≡ Ok (value_of result.0, result.1.now) }
{
    match kind {
        INTEGER => match bytes.split_first_chunk::<8>() {
            Some((number, rest)) => (ValueRef::Int(i64::from_be_bytes(*number)), rest),
            None => unreachable!(),
        },
        TEXT => {
            let (text, rest) = stored_text(bytes);
            (ValueRef::Text(text), rest)
        }
        BLOB => {
            let (blob, rest) = stored_sized(bytes);
            (ValueRef::Blob(blob), rest)
        }
        _ => (ValueRef::Null, bytes),
    }
}

/// The first value of bytes that begin with one, and the bytes behind it. Nothing is validated.
#[inline(always)]
#[tactic(auto, unfolding(crate::specs::FieldReading::value_at))]
pub fn stored_value<'a, A: AllocHandle>(bytes: &'a [u8]) -> (ValueRef<'a>, &'a [u8])
    requires { IsOk (value_at {A = A} 0 bytes.now) }
    ensures { value_at {A = A} 0 bytes.now ≡ Ok (value_of result.0, result.1.now) }
{
    match bytes {
        [kind, rest @ ..] => stored_content::<A>(*kind, rest),
        [] => unreachable!(),
    }
}
