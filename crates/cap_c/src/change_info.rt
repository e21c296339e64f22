//! A change and a field of it, as C sees them.
ghost use Rattle.std.specs.Prelude.{◌≡◌};
ghost use Rattle.std.specs.Option.{option_map};
ghost use Rattle.std.specs.Global.{Global};
ghost use Rattle.cap_field.specs.FieldReading.{value_of};
ghost use Rattle.cap_c.specs.Outputs.{value_bytes, value_output};

use cap_field::ValueRef;

/// What a change is. The operation is SQLite's number: 9, 18 or 23. Flags are 0 or 1.
#[repr(C)]
#[derive(Clone, Copy, Drop)]
pub struct ChangeInfo {
    pub op: u32,
    pub indirect: u32,
    pub patchset: u32,
    pub columns: usize,
}

/// What a field is. The kind is SQLite's number of a storage class, or 0 where the field is undefined. The
/// number is that of an integer, the length that of a text or a blob; elsewhere both are 0.
#[repr(C)]
#[derive(Clone, Copy, Drop)]
pub struct FieldValue {
    pub kind: u32,
    pub number: i64,
    pub len: usize,
}

pub(crate) fn value_output(value: Option<ValueRef<'_>>) -> FieldValue
    ensures { result ≡ value_output {A = Global} (option_map value_of value.entry) }
{
    match value {
        None => FieldValue {
            kind: 0,
            number: 0,
            len: 0,
        },
        Some(ValueRef::Int(number)) => FieldValue {
            kind: 1,
            number,
            len: 0,
        },
        Some(ValueRef::Text(text)) => FieldValue {
            kind: 3,
            number: 0,
            len: text.len(),
        },
        Some(ValueRef::Blob(bytes)) => FieldValue {
            kind: 4,
            number: 0,
            len: bytes.len(),
        },
        Some(ValueRef::Null) => FieldValue {
            kind: 5,
            number: 0,
            len: 0,
        },
    }
}

pub(crate) fn value_bytes<'a>(value: Option<ValueRef<'a>>) -> &'a [u8]
    ensures { result.now ≡ value_bytes {A = Global} (option_map value_of value.entry) }
{
    match value {
        Some(ValueRef::Text(text)) => text.as_bytes(),
        Some(ValueRef::Blob(bytes)) => bytes,
        _ => b"",
    }
}
