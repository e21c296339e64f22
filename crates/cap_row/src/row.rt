//! Rows.
ghost use Rattle.std.specs.Prelude.{◌≡◌, ◌++◌, ◌↔◌, List, length, IfOk, OnOk, OnErr, IfSome, IsTrue, slice_get};
ghost use Rattle.std.specs.Option.{option_map};
ghost use Rattle.std.specs.Result.{result_err};
ghost use Rattle.cap_value.specs.Memory.{AnswersUnlessMemory, RefusesFirst};
ghost use Rattle.cap_value.specs.Value.{IsValue};
ghost use Rattle.cap_field.specs.Field.{values_bytes};
ghost use Rattle.cap_field.specs.FieldReading.{value_of};
ghost use Rattle.cap_row.specs.Encoding.{fields_of, Encodes};
ghost use Rattle.cap_row.specs.Row.{with_fields};

use crate::row_builder::{RowBytes, room_of};
use crate::update::push_with;
use crate::{RowBuilder, RowFields, Schema, are_columns};
use cap_field::ValueRef;
use cap_value::{AllocHandle, Exact, Fault, OutOfMemory, Refusal, Value};
use smallvec::SmallVec;
use std::fmt::{self, Debug, Formatter, Write};
use std::marker::Model;
use std::sync::Arc;

/// A row: one value a column, in column order, kept as the bytes of a record in which every field is defined
/// (The Session Extension, "Changeset Format"). Copies share the bytes.
pub struct Row<A: AllocHandle> {
    bytes: Arc<RowBytes<A>, A>,
}

impl<A: AllocHandle> Model for Row<A> {
    ghost use Rattle.std.specs.Arc.{arc_value};
    ghost use Rattle.cap_row.specs.Encoding.{fields_of, Encodes};
    ghost use Rattle.cap_row.specs.Fields.{Fields};

    ghost Value = { Fields A };

    ghost view = { λ r. fields_of (arc_value r.bytes).items };

    ghost invariant = { λ r. Encodes {A = A} (arc_value r.bytes).items (fields_of (arc_value r.bytes).items) };
}

impl<A: AllocHandle> Drop for Row<A> {
    fn drop(self) {
        let Row { bytes: _ } = self;
    }
}

impl<A: AllocHandle> Row<A> {
    /// The row of these values.
    pub fn new(fields: Vec<Value<A>, A>) -> Result<Self, OutOfMemory>
        ensures { IfOk result (λ row. row ≡ fields.items) }
    {
        let room = room_of(fields.as_slice());
        let mut builder = RowBuilder::with_room(*fields.allocator(), room)?;
        builder.push_all(fields.as_slice())?;
        builder.finish()
    }

    // The row of these bytes.
    pub(crate) fn of_bytes(alloc: A, bytes: RowBytes<A>) -> Result<Self, OutOfMemory>
        requires { Encodes {A = A} bytes.items (fields_of bytes.items) }
        ensures { IfOk result (λ row. row ≡ fields_of bytes.items) }
    {
        match Arc::new(alloc, bytes) {
            Ok(bytes) => Ok(Row { bytes }),
            Err(_) => Err(OutOfMemory),
        }
    }

    /// The values, one a column.
    #[inline(always)]
    pub fn fields(&self) -> RowFields<'_, A>
        ensures { result ≡ self.now }
    {
        RowFields::of(self.bytes.as_slice())
    }

    /// The value in a column, counted from 0, or none outside the row.
    pub fn get(&self, column: usize) -> Option<ValueRef<'_>>
        ensures value { option_map value_of result ≡ slice_get self.now column }
        ensures fits { IfSome result (λ value. IsValue {A = A} (value_of value)) }
    {
        self.fields().get(column)
    }

    /// How many values there are.
    pub fn width(&self) -> usize
        ensures { result ≡ length self.now }
    {
        self.fields().width()
    }

    /// Appends the record of the row, in which every field is defined. On an error the bytes are as before.
    pub fn write_to<B: AllocHandle>(&self, out: &mut Vec<u8, B>) -> Result<(), OutOfMemory>
        ensures bytes { OnOk result (out.new.items ≡ out.old.items ++ values_bytes self.now) }
        ensures kept { OnErr result (out.new.items ≡ out.old.items) }
    {
        out.extend_from_slice(self.bytes.as_slice())
    }

    /// The row with just these fields set, each a column, counted from 0, and its new value. Refused with
    /// `BadColumn` where a column is outside the table, or named twice.
    #[tactic(auto, using(crate::proofs::RowLemmas::row_with_length))]
    pub fn with_fields(
        &self,
        alloc: A,
        schema: &Schema<A>,
        fields: &[(usize, Value<A>)],
    ) -> Result<Self, Fault<Refusal>>
        requires { length schema.now ≡ length self.now }
        ensures row { AnswersUnlessMemory result (with_fields schema.now self.now fields.now) }
        ensures first { RefusesFirst (result_err (with_fields schema.now self.now fields.now)) result }
        ensures width { IfOk result (λ row. length row ≡ length self.now) }
    {
        if !are_columns(schema.width(), fields) {
            return Err(Fault::Refused(Refusal::BadColumn));
        }
        let mut builder = RowBuilder::with_room(alloc, self.bytes.len())?;
        push_with(&mut builder, schema.width(), self.fields(), fields)?;
        Ok(builder.finish()?)
    }

    /// Whether both have the same values.
    pub fn same(&self, other: &Self) -> bool
        ensures { IsTrue result ↔ (self.now ≡ other.now) }
    {
        self == other
    }

    /// The same row, which shares its bytes.
    pub fn copy(&self) -> Result<Self, OutOfMemory>
        ensures { IfOk result (λ copy. copy ≡ self.now) }
    {
        Ok(Row {
            bytes: Arc::try_clone(&self.bytes)?,
        })
    }
}

impl<A: AllocHandle> Debug for Row<A> {
    fn fmt<W: Write>(&self, f: &mut Formatter<W>) -> fmt::Result {
        f.debug_tuple("Row").field(&self.fields()).finish()
    }
}

/// The same row, which shares its bytes.
impl<A: AllocHandle> Clone for Row<A> {
    ghost use Rattle.std.specs.Prelude.{◌≡◌};

    ghost is_clone = { λ row clone. clone ≡ row };

    fn clone(&self) -> Result<Self, OutOfMemory> {
        self.copy()
    }
}

impl<A: AllocHandle> Exact for Row<A> {
    ghost exact = { λ row clone same. same };
}

/// By their bytes, which are the same where the values are.
impl<A: AllocHandle> PartialEq for Row<A> {
    ghost use Rattle.std.specs.Cmp.{eq_by_cmp_equiv, partial_equiv_from_equiv};
    ghost use Rattle.cap_row.specs.Key.{fields_eq, fields_cmp_total};

    ghost eq = { fields_eq };

    ghost laws = { partial_equiv_from_equiv (eq_by_cmp_equiv fields_cmp_total) };

    fn eq(&self, other: &Self) -> bool {
        self.bytes.as_slice() == other.bytes.as_slice()
    }
}

impl<A: AllocHandle> Eq for Row<A> {
    ghost use Rattle.std.specs.Cmp.{eq_by_cmp_equiv};
    ghost use Rattle.cap_row.specs.Key.{fields_cmp_total};

    ghost laws = { eq_by_cmp_equiv fields_cmp_total };
}
