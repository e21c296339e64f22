//! Encoding of values.

ghost use mathlib.Core.List.{IsPrefix};
ghost use Rattle.std.specs.Prelude.{◌≡◌, ◌++◌, ◌∷◌, [], OnErr, OnOk};
ghost use Rattle.cap_field.specs.Field.{number_bytes, sized_bytes, value_bytes};

use crate::varint::push_varint;
use byteorder::{BigEndian, ByteOrder};
use cap_value::{AllocHandle, OutOfMemory, Value};

/// The type byte of a field that is not defined.
pub const UNDEFINED: u8 = 0x00;
/// The type byte of an integer.
pub const INTEGER: u8 = 0x01;
/// The type byte of a REAL, which is refused.
pub const REAL: u8 = 0x02;
/// The type byte of a text.
pub const TEXT: u8 = 0x03;
/// The type byte of a blob.
pub const BLOB: u8 = 0x04;
/// The type byte of NULL.
pub const NULL: u8 = 0x05;

/// Appends NULL.
pub fn push_null<A: AllocHandle>(out: &mut Vec<u8, A>) -> Result<(), OutOfMemory>
    ensures bytes { OnOk result (out.new.items ≡ out.old.items ++ 5 ∷ []) }
    ensures kept { OnErr result (out.new.items ≡ out.old.items) }
{
    out.push(NULL)?;
    Ok(())
}

/// Appends an integer.
pub fn push_int<A: AllocHandle>(out: &mut Vec<u8, A>, number: i64) -> Result<(), OutOfMemory>
    ensures bytes { OnOk result (out.new.items ≡ out.old.items ++ 1 ∷ number_bytes number) }
    ensures kept { OnErr result (out.new.items ≡ out.old.items) }
{
    out.extend_from_slice(&int_field(number))?;
    Ok(())
}

/// The bytes of an integer.
#[inline(always)]
pub fn int_field(number: i64) -> [u8; 9]
    ensures { result ≡ 1 ∷ number_bytes number }
{
    let mut bytes = [INTEGER; 9];
    BigEndian::write_i64(&mut bytes[1..], number);
    bytes
}

fn push_sized<A: AllocHandle>(
    out: &mut Vec<u8, A>,
    kind: u8,
    bytes: &[u8],
) -> Result<(), OutOfMemory>
    ensures bytes { OnOk result (out.new.items ≡ out.old.items ++ kind ∷ sized_bytes bytes.now) }
    ensures begins { OnErr result (IsPrefix out.old.items out.new.items) }
{
    out.push(kind)?;
    push_varint(out, bytes.len())?;
    out.extend_from_slice(bytes)?;
    Ok(())
}

fn push_whole<A: AllocHandle>(
    out: &mut Vec<u8, A>,
    kind: u8,
    bytes: &[u8],
) -> Result<(), OutOfMemory>
    ensures bytes { OnOk result (out.new.items ≡ out.old.items ++ kind ∷ sized_bytes bytes.now) }
    ensures kept { OnErr result (out.new.items ≡ out.old.items) }
{
    let before = out.len();
    match push_sized(out, kind, bytes) {
        Ok(()) => Ok(()),
        Err(_) => {
            out.truncate(before);
            Err(OutOfMemory)
        }
    }
}

/// Appends a text.
pub fn push_text<A: AllocHandle>(out: &mut Vec<u8, A>, text: &str) -> Result<(), OutOfMemory>
    ensures bytes { OnOk result (out.new.items ≡ out.old.items ++ 3 ∷ sized_bytes text.now) }
    ensures kept { OnErr result (out.new.items ≡ out.old.items) }
{
    push_whole(out, TEXT, text.as_bytes())
}

/// Appends a blob.
pub fn push_blob<A: AllocHandle>(out: &mut Vec<u8, A>, bytes: &[u8]) -> Result<(), OutOfMemory>
    ensures bytes { OnOk result (out.new.items ≡ out.old.items ++ 4 ∷ sized_bytes bytes.now) }
    ensures kept { OnErr result (out.new.items ≡ out.old.items) }
{
    push_whole(out, BLOB, bytes)
}

/// Appends a value.
pub fn push_value<A: AllocHandle>(out: &mut Vec<u8, A>, value: &Value<A>) -> Result<(), OutOfMemory>
    ensures bytes { OnOk result (out.new.items ≡ out.old.items ++ value_bytes value.now) }
    ensures kept { OnErr result (out.new.items ≡ out.old.items) }
{
    match value {
        Value::Null => push_null(out),
        Value::Int(number) => push_int(out, *number),
        Value::Text(text) => push_text(out, text.as_str()),
        Value::Blob(blob) => push_blob(out, blob.as_slice()),
    }
}
