//! Rows that are made a value at a time.
ghost use mathlib.Core.List.{IsPrefix};
ghost use Rattle.std.specs.Prelude.{◌≡◌, ◌++◌, ◌∷◌, [], ◌≤◌, List, length, map, take, drop, OnOk, OnErr, IfOk};
ghost use Rattle.std.specs.Option.{option_copied, unwrap_or};
ghost use Rattle.cap_value.specs.declared.limits.TheConstants.{VALUE_BYTES_MAX};
ghost use Rattle.cap_value.specs.declared.value.Value.TheVariants as values;
ghost use Rattle.cap_value.specs.Value.{IsValue};
ghost use Rattle.cap_field.specs.Field.{sized_bytes, value_bytes};
ghost use Rattle.cap_field.specs.FieldReading.{value_of};
ghost use Rattle.cap_field.specs.Varint.{varint_bytes};

use crate::{Row, RowFields};
use cap_field::{BLOB, NULL, TEXT, ValueRef, int_field, push_varint};
use cap_value::{AllocHandle, OutOfMemory, Value};
use smallvec::SmallVec;
use std::marker::Model;

/// The bytes of a row. As many as this fit inline, so that most rows are one allocation.
pub(crate) type RowBytes<A> = SmallVec<u8, 48, A>;

/// The values of a row that is being made. It is taken again for row after row, so that a long row takes no
/// memory but its own.
pub struct RowBuilder<A: AllocHandle> {
    bytes: RowBytes<A>,
}

impl<A: AllocHandle> Model for RowBuilder<A> {
    ghost use Rattle.cap_row.specs.Encoding.{fields_of, Encodes};
    ghost use Rattle.cap_row.specs.Fields.{Fields};

    ghost Value = { Fields A };

    ghost view = { λ b. fields_of b.bytes.items };

    ghost invariant = { λ b. Encodes {A = A} b.bytes.items (fields_of b.bytes.items) };
}

impl<A: AllocHandle> Drop for RowBuilder<A> {
    fn drop(self) {
        let RowBuilder { bytes: _ } = self;
    }
}

impl<A: AllocHandle> RowBuilder<A> {
    /// No values. Takes no memory.
    #[tactic(auto, using(crate::proofs::EncodingLemmas::no_values))]
    pub fn new(alloc: A) -> Self
        ensures { result ≡ [] }
    {
        RowBuilder {
            bytes: SmallVec::new(alloc),
        }
    }

    /// No values, with memory for so many bytes.
    #[tactic(auto, using(crate::proofs::EncodingLemmas::no_values))]
    pub fn with_room(alloc: A, room: usize) -> Result<Self, OutOfMemory>
        ensures { IfOk result (λ builder. builder ≡ []) }
    {
        Ok(RowBuilder {
            bytes: SmallVec::with_capacity(alloc, room)?,
        })
    }

    /// Takes all values away, and keeps the memory.
    #[tactic(auto, using(crate::proofs::EncodingLemmas::no_values))]
    pub fn clear(&mut self)
        ensures { self.new ≡ [] }
    {
        self.bytes.clear();
    }

    /// Appends NULL. On an error the values are as before.
    pub fn push_null(&mut self) -> Result<(), OutOfMemory>
        ensures pushed { OnOk result (self.new ≡ self.old ++ values.Null ∷ []) }
        ensures kept { OnErr result (self.new ≡ self.old) }
    {
        self.push_ref(ValueRef::Null)
    }

    /// Appends an integer. On an error the values are as before.
    pub fn push_int(&mut self, number: i64) -> Result<(), OutOfMemory>
        ensures pushed { OnOk result (self.new ≡ self.old ++ values.Int number ∷ []) }
        ensures kept { OnErr result (self.new ≡ self.old) }
    {
        self.push_ref(ValueRef::Int(number))
    }

    /// Appends a text. On an error the values are as before.
    pub fn push_text(&mut self, text: &str) -> Result<(), OutOfMemory>
        requires { length text.now ≤ VALUE_BYTES_MAX }
        ensures pushed { OnOk result (self.new ≡ self.old ++ values.Text text.now ∷ []) }
        ensures kept { OnErr result (self.new ≡ self.old) }
    {
        self.push_ref(ValueRef::Text(text))
    }

    /// Appends a blob. On an error the values are as before.
    pub fn push_blob(&mut self, bytes: &[u8]) -> Result<(), OutOfMemory>
        requires { length bytes.now ≤ VALUE_BYTES_MAX }
        ensures pushed { OnOk result (self.new ≡ self.old ++ values.Blob bytes.now ∷ []) }
        ensures kept { OnErr result (self.new ≡ self.old) }
    {
        self.push_ref(ValueRef::Blob(bytes))
    }

    /// Appends a value. On an error the values are as before.
    pub fn push(&mut self, value: &Value<A>) -> Result<(), OutOfMemory>
        ensures pushed { OnOk result (self.new ≡ self.old ++ value.now ∷ []) }
        ensures kept { OnErr result (self.new ≡ self.old) }
    {
        self.push_ref(ValueRef::of(value))
    }

    #[tactic(auto, using(crate::proofs::EncodingLemmas::appended_value))]
    #[inline(always)]
    fn push_ref(&mut self, value: ValueRef<'_>) -> Result<(), OutOfMemory>
        requires { IsValue {A = A} (value_of value) }
        ensures pushed { OnOk result (self.new ≡ self.old ++ value_of value.entry ∷ []) }
        ensures kept { OnErr result (self.new ≡ self.old) }
    {
        push_value(&mut self.bytes, value)
    }

    /// Appends values. On an error some of them may be appended.
    pub fn push_all(&mut self, values: &[Value<A>]) -> Result<(), OutOfMemory>
        ensures { OnOk result (self.new ≡ self.old ++ values.now) }
    {
        for value in values {
            self.push(value)?;
        }
        Ok(())
    }

    /// Appends the next value of a row, where there is one. On an error the values are as before.
    #[tactic(auto, using(crate::proofs::EncodingLemmas::appended_value))]
    pub fn push_next(&mut self, fields: &mut RowFields<'_, A>) -> Result<(), OutOfMemory>
        ensures pushed { OnOk result (self.new ≡ self.old ++ take 1 fields.old) }
        ensures kept { OnErr result (self.new ≡ self.old) }
        ensures passed { fields.new ≡ drop 1 fields.old }
    {
        let Some(field) = fields.next_field() else {
            return Ok(());
        };
        push_bytes(&mut self.bytes, field)
    }

    /// The same, with a new value in its place where one is given.
    pub fn push_next_or(
        &mut self,
        new: Option<&Value<A>>,
        fields: &mut RowFields<'_, A>,
    ) -> Result<(), OutOfMemory>
        ensures pushed { OnOk result
            (self.new ≡ self.old ++ map (unwrap_or (option_copied new.entry)) (take 1 fields.old)) }
        ensures kept { OnErr result (self.new ≡ self.old) }
        ensures passed { fields.new ≡ drop 1 fields.old }
    {
        match new {
            None => self.push_next(fields),
            Some(value) => {
                let Some(_) = fields.next_value() else {
                    return Ok(());
                };
                self.push(value)
            }
        }
    }

    /// Appends what is left of a row. On an error the values are as before.
    #[tactic(auto, using(crate::proofs::EncodingLemmas::appended_fields))]
    pub fn push_rest(&mut self, fields: RowFields<'_, A>) -> Result<(), OutOfMemory>
        ensures pushed { OnOk result (self.new ≡ self.old ++ fields.entry) }
        ensures kept { OnErr result (self.new ≡ self.old) }
    {
        push_bytes(&mut self.bytes, fields.as_bytes())
    }

    /// The row of these values, which are kept.
    pub fn row(&self) -> Result<Row<A>, OutOfMemory>
        ensures { IfOk result (λ row. row ≡ self.now) }
    {
        let alloc = *self.bytes.allocator();
        let bytes = SmallVec::from_slice(alloc, self.bytes.as_slice())?;
        Row::of_bytes(alloc, bytes)
    }

    /// The row of these values.
    pub fn finish(self) -> Result<Row<A>, OutOfMemory>
        ensures { IfOk result (λ row. row ≡ self) }
    {
        let RowBuilder { mut bytes } = self;
        if bytes.spilled() {
            bytes.shrink_to_fit();
        }
        Row::of_bytes(*bytes.allocator(), bytes)
    }
}

// How many bytes these values take, which is asked for at once. No proof rests on it.
pub(crate) fn room_of<A: AllocHandle>(values: &[Value<A>]) -> usize {
    let mut room = 0usize;
    for value in values {
        room = room.wrapping_add(match value {
            Value::Null => 1,
            Value::Int(_) => 9,
            Value::Text(text) => sized_room(text.as_str().len()),
            Value::Blob(blob) => sized_room(blob.as_slice().len()),
        });
    }
    room
}

// The same of a text or a blob of so many bytes: of a long one a byte or two more.
fn sized_room(length: usize) -> usize {
    let front = if length < 128 {
        2
    } else if length < 16_384 {
        3
    } else {
        6
    };
    length.wrapping_add(front)
}

#[inline(always)]
fn push_value<A: AllocHandle>(out: &mut RowBytes<A>, value: ValueRef<'_>) -> Result<(), OutOfMemory>
    ensures bytes { OnOk result
        (out.new.items ≡ out.old.items ++ value_bytes {A = A} (value_of value.entry)) }
    ensures kept { OnErr result (out.new.items ≡ out.old.items) }
{
    match value {
        ValueRef::Null => push_bytes(out, &[NULL]),
        ValueRef::Int(number) => push_bytes(out, &int_field(number)),
        ValueRef::Text(text) => push_sized(out, TEXT, text.as_bytes()),
        ValueRef::Blob(bytes) => push_sized(out, BLOB, bytes),
    }
}

#[inline(always)]
fn push_bytes<A: AllocHandle>(out: &mut RowBytes<A>, bytes: &[u8]) -> Result<(), OutOfMemory>
    ensures bytes { OnOk result (out.new.items ≡ out.old.items ++ bytes.now) }
    ensures kept { OnErr result (out.new.items ≡ out.old.items) }
{
    out.extend_from_slice(bytes)?;
    Ok(())
}

// Appends a text or a blob behind its type byte and its length.
fn push_sized<A: AllocHandle>(
    out: &mut RowBytes<A>,
    kind: u8,
    bytes: &[u8],
) -> Result<(), OutOfMemory>
    ensures bytes { OnOk result (out.new.items ≡ out.old.items ++ kind ∷ sized_bytes bytes.now) }
    ensures kept { OnErr result (out.new.items ≡ out.old.items) }
{
    let before = out.len();
    match push_parts(out, kind, bytes) {
        Ok(()) => Ok(()),
        Err(_) => {
            out.truncate(before);
            Err(OutOfMemory)
        }
    }
}

// The same. On an error a beginning of it is appended.
fn push_parts<A: AllocHandle>(
    out: &mut RowBytes<A>,
    kind: u8,
    bytes: &[u8],
) -> Result<(), OutOfMemory>
    ensures bytes { OnOk result (out.new.items ≡ out.old.items ++ kind ∷ sized_bytes bytes.now) }
    ensures begins { OnErr result (IsPrefix out.old.items out.new.items) }
{
    out.push(kind)?;
    push_length(out, bytes.len())?;
    out.extend_from_slice(bytes)?;
    Ok(())
}

#[tactic(auto, using(cap_field::proofs::Spelled::digits_1))]
#[inline(always)]
fn push_length<A: AllocHandle>(out: &mut RowBytes<A>, length: usize) -> Result<(), OutOfMemory>
    ensures bytes { OnOk result (out.new.items ≡ out.old.items ++ varint_bytes length) }
    ensures kept { OnErr result (out.new.items ≡ out.old.items) }
{
    if length < 128 {
        out.push(length as u8)?;
        return Ok(());
    }
    push_long(out, length)
}

// Most lengths are one byte, so these alone are made part of the callers.
#[inline(never)]
fn push_long<A: AllocHandle>(out: &mut RowBytes<A>, length: usize) -> Result<(), OutOfMemory>
    ensures bytes { OnOk result (out.new.items ≡ out.old.items ++ varint_bytes length) }
    ensures kept { OnErr result (out.new.items ≡ out.old.items) }
{
    let mut bytes = Vec::new(*out.allocator());
    push_varint(&mut bytes, length)?;
    out.extend_from_slice(bytes.as_slice())?;
    Ok(())
}
