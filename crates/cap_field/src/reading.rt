//! Reading the parts of a blob in place: varints, numbers and texts.

ghost use Rattle.std.specs.Prelude.{◌≡◌, ◌≤◌, Option, Some, None, length, IfOk};
ghost use Rattle.std.specs.Option.{option_map};
ghost use Rattle.cap_value.specs.declared.limits.TheConstants.{VALUE_BYTES_MAX};
ghost use Rattle.cap_field.specs.Reading.{place, Reads, byte_at, bytes_at, varint_at};
ghost use Rattle.cap_field.specs.FieldReading.{text_of, number_at, sized_at, text_at};

use crate::fault::{BlobFault, FaultKind};
use cap_value::VALUE_BYTES_MAX;

/// The offset of the first of these bytes, the last ones of a blob of `total` bytes.
pub fn place_of(total: usize, bytes: &[u8]) -> usize
    ensures { result ≡ place total bytes.now }
{
    total.saturating_sub(bytes.len())
}

// A fault of this kind at this offset.
#[inline(always)]
fn fault(kind: FaultKind, at: usize) -> BlobFault
    ensures { result ≡ record { at = at; kind = kind } }
{
    BlobFault { at, kind }
}

/// The first byte, and the bytes behind it.
pub fn take_byte(total: usize, bytes: &[u8]) -> Result<(u8, &[u8]), BlobFault>
    ensures reads { Reads (λ x. (x.0, x.1.now)) result (byte_at total bytes.now) }
    ensures behind { IfOk result (λ x. length x.1.now ≤ length bytes.now) }
{
    match bytes {
        [] => Err(fault(FaultKind::Truncated, total)),
        [byte, rest @ ..] => Ok((*byte, rest)),
    }
}

/// The first `count` bytes, and the bytes behind them.
pub fn take_bytes(total: usize, count: usize, bytes: &[u8]) -> Result<(&[u8], &[u8]), BlobFault>
    ensures reads { Reads (λ x. (x.0.now, x.1.now)) result (bytes_at total count bytes.now) }
    ensures behind { IfOk result (λ x. length x.1.now ≤ length bytes.now) }
{
    if bytes.len() < count {
        return Err(fault(FaultKind::Truncated, total));
    }
    Ok(bytes.split_at(count))
}

/// A varint, and the bytes behind it.
#[tactic(auto, unfolding(crate::specs::Reading::varint_at))]
#[inline(always)]
pub fn take_varint(total: usize, bytes: &[u8]) -> Result<(usize, &[u8]), BlobFault>
    ensures reads { Reads (λ x. (x.0, x.1.now)) result (varint_at total bytes.now) }
    ensures behind { IfOk result (λ x. length x.1.now ≤ length bytes.now) }
{
    match bytes {
        [byte, rest @ ..] if *byte < 128 => Ok((*byte as usize, rest)),
        _ => take_groups(total, bytes),
    }
}

// The groups of seven bits of a varint. Most varints have one, so this is no part of the callers.
#[tactic(auto, using(crate::proofs::Spelled::below_groups), unfolding(crate::specs::Reading::varint_at))]
#[inline(never)]
fn take_groups(total: usize, bytes: &[u8]) -> Result<(usize, &[u8]), BlobFault>
    ensures reads { Reads (λ x. (x.0, x.1.now)) result (varint_at total bytes.now) }
    ensures behind { IfOk result (λ x. length x.1.now ≤ length bytes.now) }
{
    let mut high: usize = 0;
    for (read, byte) in bytes.iter().enumerate() {
        let byte = *byte as usize;
        if byte < 128 {
            return Ok((high * 128 + byte, &bytes[read + 1..]));
        }
        if read == 4 || (read == 0 && byte == 128) {
            return Err(fault(FaultKind::BadVarint, place_of(total, bytes)));
        }
        high = high * 128 + (byte - 128);
    }
    Err(fault(FaultKind::Truncated, total))
}

/// The bytes as a text, `None` where they are not UTF-8.
#[tactic(auto, using(crate::proofs::Spelled::utf8))]
pub fn text_in(bytes: &[u8]) -> Option<&str>
    ensures { option_map (λ text. text.now) result ≡ text_of bytes.now }
{
    match std::str::from_utf8(bytes) {
        Ok(text) => Some(text),
        Err(_) => None,
    }
}

/// A length and that many bytes. `at` is the offset of the field's type byte.
#[tactic(auto, unfolding(crate::specs::FieldReading::sized_at))]
#[inline(always)]
pub fn take_sized(total: usize, at: usize, bytes: &[u8]) -> Result<(&[u8], &[u8]), BlobFault>
    ensures reads { Reads (λ x. (x.0.now, x.1.now)) result (sized_at total at bytes.now) }
    ensures behind { IfOk result (λ x. length x.1.now ≤ length bytes.now) }
    ensures within { IfOk result (λ x. length x.0.now ≤ VALUE_BYTES_MAX) }
{
    let (count, rest) = take_varint(total, bytes)?;
    if count > VALUE_BYTES_MAX {
        return Err(fault(FaultKind::BadField, at));
    }
    take_bytes(total, count, rest)
}

/// The number of an integer, and the bytes behind it.
#[inline(always)]
pub fn take_number(total: usize, bytes: &[u8]) -> Result<(i64, &[u8]), BlobFault>
    ensures reads { Reads (λ x. (x.0, x.1.now)) result (number_at total bytes.now) }
    ensures behind { IfOk result (λ x. length x.1.now ≤ length bytes.now) }
{
    match bytes.split_first_chunk::<8>() {
        Some((number, rest)) => Ok((i64::from_be_bytes(*number), rest)),
        None => Err(fault(FaultKind::Truncated, total)),
    }
}

/// A length and that many bytes, which are UTF-8. `at` is the offset of the field's type byte.
#[tactic(auto, unfolding(crate::specs::FieldReading::text_at))]
#[inline(always)]
pub fn take_text(total: usize, at: usize, bytes: &[u8]) -> Result<(&str, &[u8]), BlobFault>
    ensures reads { Reads (λ x. (x.0.now, x.1.now)) result (text_at total at bytes.now) }
    ensures behind { IfOk result (λ x. length x.1.now ≤ length bytes.now) }
    ensures within { IfOk result (λ x. length x.0.now ≤ VALUE_BYTES_MAX) }
{
    let (text, rest) = take_sized(total, at, bytes)?;
    match text_in(text) {
        Some(text) => Ok((text, rest)),
        None => Err(fault(FaultKind::BadText, at)),
    }
}
