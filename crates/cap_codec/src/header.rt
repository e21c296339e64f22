//! The header of a group.

ghost use Rattle.std.specs.Prelude.{◌≡◌, ◌<◌, ◌≤◌, ◌+◌};
ghost use Rattle.std.specs.Prelude.{Option, length, take, position, IfSome, IfOk, IsTrue};
ghost use Rattle.cap_value.specs.Bytes.{is_name};
ghost use Rattle.std.specs.List.{list_any};
ghost use Rattle.cap_field.specs.Reading.{place, Reads};
ghost use Rattle.cap_codec.specs.HeaderReading.{is_zero};
ghost use Rattle.cap_changes.specs.ChangeReading.{is_set};
ghost use Rattle.cap_codec.specs.HeaderReading.{name_at, header_at, header_of};

use cap_field::{BlobFault, FaultKind, place_of, take_bytes, take_varint, text_in};
use cap_row::COLUMNS_MAX;
use cap_value::NAME_BYTES_MAX;

/// A header, as references into a blob.
#[derive(Clone, Copy)]
pub struct HeaderRef<'a> {
    /// One byte for each column, zero where it is not in the key.
    pub flags: &'a [u8],
    /// The table's name.
    pub table: &'a str,
}

/// A fault of this kind at this offset.
pub fn fault(at: usize, kind: FaultKind) -> BlobFault
    ensures { result ≡ record { at = at; kind = kind } }
{
    BlobFault { at, kind }
}

fn has_key(flags: &[u8]) -> bool
    ensures { result ≡ list_any is_set flags.now }
{
    flags.iter().any(|flag| *flag != 0)
}

// The offset of the first zero byte, where it is among the first 256.
fn name_len(bytes: &[u8]) -> Option<usize>
    ensures first { result ≡ position is_zero (take 256 bytes.now) }
    ensures within { IfSome result (λ len. (len < length bytes.now) × (len ≤ NAME_BYTES_MAX)) }
{
    bytes
        .iter()
        .take(NAME_BYTES_MAX + 1)
        .position(|byte| *byte == 0)
}

#[tactic(auto, using(crate::proofs::HeaderLemmas::name_before), unfolding(crate::specs::HeaderReading::name_at))]
fn take_name(total: usize, bytes: &[u8]) -> Result<(&str, &[u8]), BlobFault>
    ensures reads { Reads (λ x. (x.0.now, x.1.now)) result (name_at total bytes.now) }
    ensures behind { IfOk result (λ x. length x.1.now ≤ length bytes.now) }
    ensures name { IfOk result (λ x. IsTrue (is_name x.0.now)) }
{
    let Some(len) = name_len(bytes) else {
        if bytes.len() <= NAME_BYTES_MAX {
            return Err(fault(total, FaultKind::Truncated));
        }
        return Err(fault(place_of(total, bytes), FaultKind::BadName));
    };
    match text_in(&bytes[..len]) {
        Some(name) if len > 0 => Ok((name, &bytes[len + 1..])),
        _ => Err(fault(place_of(total, bytes), FaultKind::BadName)),
    }
}

/// The header behind its kind byte.
#[tactic(auto, unfolding(crate::specs::HeaderReading::header_at, crate::specs::HeaderReading::count_at, crate::specs::HeaderReading::flags_at))]
pub fn take_header(total: usize, bytes: &[u8]) -> Result<(HeaderRef<'_>, &[u8]), BlobFault>
    ensures reads { Reads (λ x. (header_of x.0, x.1.now)) result (header_at total bytes.now) }
    ensures behind { IfOk result (λ x. length x.1.now ≤ length bytes.now) }
    ensures columns { IfOk result (λ x. (1 ≤ length x.0.flags.now) × (length x.0.flags.now ≤ COLUMNS_MAX)) }
    ensures keyed { IfOk result (λ x. IsTrue (list_any is_set x.0.flags.now)) }
    ensures name { IfOk result (λ x. IsTrue (is_name x.0.table.now)) }
{
    let (count, rest) = take_varint(total, bytes)?;
    if count == 0 || count > COLUMNS_MAX {
        return Err(fault(place_of(total, bytes), FaultKind::BadHeader));
    }
    let (flags, behind) = take_bytes(total, count, rest)?;
    if !has_key(flags) {
        return Err(fault(place_of(total, rest), FaultKind::BadHeader));
    }
    let (table, rest) = take_name(total, behind)?;
    Ok((HeaderRef { flags, table }, rest))
}
