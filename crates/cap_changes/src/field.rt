//! Fields of records: values, and undefined ones.
ghost use Rattle.std.specs.Prelude.{◌≡◌, ◌≤◌, Ok, IfOk, IfSome, IsOk, length};
ghost use Rattle.cap_value.specs.Value.{IsValue};
ghost use Rattle.cap_value.specs.declared.limits.TheConstants.{VALUE_BYTES_MAX};
ghost use Rattle.cap_field.specs.Reading.{Reads};
ghost use Rattle.cap_field.specs.FieldReading.{value_of};
ghost use Rattle.cap_field.specs.declared.value_ref.ValueRef.TheVariants.{Text, Blob};
ghost use Rattle.cap_changes.specs.FieldReading.{allows, content_at, field_at, field_of};
ghost use Rattle.cap_changes.specs.declared.field_requirement.FieldRequirement.TheVariants.{Any};

use crate::FieldRequirement;
use cap_field::{
    BLOB, BlobFault, FaultKind, INTEGER, NULL, REAL, TEXT, UNDEFINED, ValueRef, place_of,
    stored_value, take_byte, take_number, take_sized, take_text,
};
use cap_value::AllocHandle;

fn is_allowed(requirement: FieldRequirement, kind: u8) -> bool
    ensures { result ≡ allows requirement kind }
{
    match requirement {
        FieldRequirement::Key => kind != UNDEFINED && kind != NULL,
        FieldRequirement::Defined => kind != UNDEFINED,
        FieldRequirement::Any => true,
        FieldRequirement::Undefined | FieldRequirement::Omitted => kind == UNDEFINED,
    }
}

// The text, which is no longer than a value may be.
#[inline(always)]
fn text_ref<A: AllocHandle>(text: &str) -> ValueRef<'_>
    requires { length text.now ≤ VALUE_BYTES_MAX }
    ensures is { result ≡ Text text.exit }
    ensures fits { IsValue {A = A} (value_of result) }
{
    ValueRef::Text(text)
}

// The blob, which is no longer than a value may be.
#[inline(always)]
fn blob_ref<A: AllocHandle>(blob: &[u8]) -> ValueRef<'_>
    requires { length blob.now ≤ VALUE_BYTES_MAX }
    ensures is { result ≡ Blob blob.exit }
    ensures fits { IsValue {A = A} (value_of result) }
{
    ValueRef::Blob(blob)
}

// The value behind a type byte that is allowed. `at` is the offset of that byte.
#[inline(always)]
#[tactic(auto, unfolding(crate::specs::FieldReading::content_at))]
fn take_content<'a, A: AllocHandle>(
    total: usize,
    at: usize,
    kind: u8,
    bytes: &'a [u8],
) -> Result<(Option<ValueRef<'a>>, &'a [u8]), BlobFault>
    ensures reads { Reads (λ x. (field_of {A = A} x.0, x.1.now)) result (content_at total at kind bytes.now) }
    ensures behind { IfOk result (λ x. length x.1.now ≤ length bytes.now) }
    ensures within { IfOk result (λ x. IfSome (field_of {A = A} x.0) IsValue) }
{
    match kind {
        UNDEFINED => Ok((None, bytes)),
        INTEGER => {
            let (number, rest) = take_number(total, bytes)?;
            Ok((Some(ValueRef::Int(number)), rest))
        }
        TEXT => {
            let (text, rest) = take_text(total, at, bytes)?;
            Ok((Some(text_ref::<A>(text)), rest))
        }
        BLOB => {
            let (blob, rest) = take_sized(total, at, bytes)?;
            Ok((Some(blob_ref::<A>(blob)), rest))
        }
        _ => Ok((Some(ValueRef::Null), bytes)),
    }
}

/// A field with this requirement, none where it is undefined, and the bytes behind it.
#[inline(always)]
#[tactic(auto, unfolding(crate::specs::FieldReading::field_at))]
pub fn take_field<'a, A: AllocHandle>(
    total: usize,
    requirement: FieldRequirement,
    bytes: &'a [u8],
) -> Result<(Option<ValueRef<'a>>, &'a [u8]), BlobFault>
    ensures reads { Reads (λ x. (field_of {A = A} x.0, x.1.now)) result
        (field_at total requirement bytes.now) }
    ensures behind { IfOk result (λ x. length x.1.now ≤ length bytes.now) }
    ensures within { IfOk result (λ x. IfSome (field_of {A = A} x.0) IsValue) }
{
    if requirement == FieldRequirement::Omitted {
        return Ok((None, bytes));
    }
    let at = place_of(total, bytes);
    let (kind, rest) = take_byte(total, bytes)?;
    if kind == REAL {
        return Err(BlobFault {
            at,
            kind: FaultKind::Real,
        });
    }
    if kind > NULL {
        return Err(BlobFault {
            at,
            kind: FaultKind::BadField,
        });
    }
    if !is_allowed(requirement, kind) {
        return Err(BlobFault {
            at,
            kind: FaultKind::BadRecord,
        });
    }
    take_content::<A>(total, at, kind, rest)
}

/// The first field of bytes that begin with one, and the bytes behind it. Nothing is validated.
#[inline(always)]
#[tactic(auto, unfolding(crate::specs::FieldReading::field_at), using(crate::proofs::StoredRecord::defined_at, crate::proofs::StoredRecord::undefined_at))]
pub(crate) fn stored_field<'a, A: AllocHandle>(bytes: &'a [u8]) -> (Option<ValueRef<'a>>, &'a [u8])
    requires { IsOk (field_at {A = A} 0 Any bytes.now) }
    ensures { field_at {A = A} 0 Any bytes.now ≡ Ok (field_of result.0, result.1.now) }
{
    match bytes {
        [kind, rest @ ..] => {
            if *kind == UNDEFINED {
                return (None, rest);
            }
            let (value, rest) = stored_value::<A>(bytes);
            (Some(value), rest)
        }
        [] => unreachable!(),
    }
}
