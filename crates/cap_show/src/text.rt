//! The text of values, columns and records.
ghost use Rattle.hex.specs.Hex.{encode_lower};
ghost use Rattle.std.specs.Fmt.{WritesOnOk};
ghost use Rattle.std.specs.List.{filter_map, flat_map, join_by};
ghost use Rattle.std.specs.Prelude.{◌≡◌, ◌<◌, ◌++◌, ◌∷◌, [], MatchOption, codes};
ghost use Rattle.cap_field.specs.FieldReading.{value_of};
ghost use Rattle.cap_changes.specs.FieldReading.{field_of};
ghost use Rattle.cap_show.specs.Code.DefinedFields.{comma_text, is_first_after, next_text};
ghost use Rattle.cap_show.specs.ShowText as spec;

use cap_changes::{ChangeRef, EntryRef, Patch, PatchRef, RecordRef, RowChange};
use cap_field::ValueRef;
use cap_row::Schema;
use cap_value::{AllocHandle, Name, Value};
use std::fmt;
use std::fmt::{Display, Formatter, Write};
use std::marker::PhantomData;

/// A value as text: `null`, decimal digits, a text between `'` with each `'` in it doubled, or the lower case
/// hex digits of a blob between `x'` and `'`. The error is the writer's.
#[derive(Drop)]
pub struct ValueText<'a, A: AllocHandle> {
    value: ValueRef<'a>,
    marker: PhantomData<A>,
}

impl<'a, A: AllocHandle> ValueText<'a, A> {
    /// The text of a value.
    pub fn of(value: &'a Value<A>) -> Self
        ensures { value_of result.value ≡ value.now }
    {
        ValueText {
            value: ValueRef::of(value),
            marker: PhantomData,
        }
    }

    /// The text of a value in place.
    pub fn of_ref(value: ValueRef<'a>) -> Self
        ensures { value_of {A = A} result.value ≡ value_of value.entry }
    {
        ValueText {
            value,
            marker: PhantomData,
        }
    }
}

impl<'a, A: AllocHandle> Display for ValueText<'a, A> {
    ghost use Rattle.std.specs.Prelude.{Some};
    ghost use Rattle.cap_field.specs.FieldReading.{value_of};
    ghost use Rattle.cap_show.specs.ShowText.{value_text};

    ghost output = { λ shown. Some (value_text {A = A} (value_of shown.value)) };

    fn fmt<W: Write>(&self, f: &mut Formatter<W>) -> fmt::Result {
        match self.value {
            ValueRef::Null => f.write_str("null"),
            ValueRef::Int(number) => write!(f, "{number}"),
            ValueRef::Text(text) => write_quoted(f, text, '\''),
            ValueRef::Blob(bytes) => write_blob(f, bytes),
        }
    }
}

// Writes a text between two quotes of this kind, with each of those in it doubled.
pub(crate) fn write_quoted<W: Write>(f: &mut Formatter<W>, text: &str, quote: char) -> fmt::Result
    requires ascii { quote < 128 }
    ensures { WritesOnOk W.write_str_gives f.old result (spec.quoted quote text.now) f.new }
{
    write_quote(f, quote)?;
    write_doubled(f, text, quote)?;
    write_quote(f, quote)
}

// Writes a text with each of these quotes in it doubled.
fn write_doubled<W: Write>(f: &mut Formatter<W>, text: &str, quote: char) -> fmt::Result
    requires ascii { quote < 128 }
    ensures { WritesOnOk W.write_str_gives f.old result (spec.doubled quote text.now) f.new }
{
    let mut rest = text;
    while let Some((piece, after)) = split_at_quote(rest, quote) {
        write_piece(f, piece, quote)?;
        rest = after;
    }
    f.write_str(rest)
}

// Writes what stands before a quote, and the quote twice.
fn write_piece<W: Write>(f: &mut Formatter<W>, piece: &str, quote: char) -> fmt::Result
    requires ascii { quote < 128 }
    ensures { WritesOnOk W.write_str_gives f.old result (piece.now ++ (quote ∷ quote ∷ [])) f.new }
{
    f.write_str(piece)?;
    write_quote(f, quote)?;
    write_quote(f, quote)
}

fn write_quote<W: Write>(f: &mut Formatter<W>, quote: char) -> fmt::Result
    requires ascii { quote < 128 }
    ensures { WritesOnOk W.write_str_gives f.old result (quote ∷ []) f.new }
{
    f.write_char(quote)
}

// The text before its first quote of this kind, and the text behind that quote.
fn split_at_quote(text: &str, quote: char) -> Option<(&str, &str)>
    requires ascii { quote < 128 }
    ensures { MatchOption result
        (spec.doubled quote text.now ≡ text.now)
        (λ parts. (text.now ≡ parts.0.now ++ quote ∷ parts.1.now)
        × (spec.doubled quote text.now ≡ parts.0.now ++ quote ∷ quote ∷ spec.doubled quote parts.1.now)) }
{
    text.split_once(quote)
}

// Writes the hex digits of a blob.
pub(crate) fn write_blob<W: Write>(f: &mut Formatter<W>, bytes: &[u8]) -> fmt::Result
    ensures { WritesOnOk W.write_str_gives f.old result (spec.blob_text bytes.now) f.new }
{
    f.write_str("x'")?;
    write_hex(f, bytes)?;
    f.write_str("'")
}

fn write_hex<W: Write>(f: &mut Formatter<W>, bytes: &[u8]) -> fmt::Result
    ensures { WritesOnOk W.write_str_gives f.old result (encode_lower bytes.now) f.new }
{
    for byte in bytes {
        write_byte(f, *byte)?;
    }
    Ok(())
}

fn write_byte<W: Write>(f: &mut Formatter<W>, byte: u8) -> fmt::Result
    ensures { WritesOnOk W.write_str_gives f.old result (encode_lower (byte ∷ [])) f.new }
{
    write!(f, "{byte:02x}")
}

// The columns of a table as text: `k` for each column of the primary key, and `v` for each other.
#[derive(Drop)]
pub(crate) struct SchemaText<'a, A: AllocHandle>(pub(crate) &'a Schema<A>);

impl<'a, A: AllocHandle> Display for SchemaText<'a, A> {
    ghost use Rattle.std.specs.Prelude.{Some};
    ghost use Rattle.std.specs.List.{flat_map};
    ghost use Rattle.cap_show.specs.ShowText.{column_text};

    ghost output = { λ shown. Some (flat_map column_text shown.0.now) };

    fn fmt<W: Write>(&self, f: &mut Formatter<W>) -> fmt::Result {
        write_columns(f, self.0.flags())
    }
}

fn write_columns<W: Write>(f: &mut Formatter<W>, flags: &[bool]) -> fmt::Result
    ensures { WritesOnOk W.write_str_gives f.old result (flat_map spec.column_text flags.now) f.new }
{
    for is_key in flags {
        write_column(f, *is_key)?;
    }
    Ok(())
}

fn write_column<W: Write>(f: &mut Formatter<W>, is_key: bool) -> fmt::Result
    ensures { WritesOnOk W.write_str_gives f.old result (spec.column_text is_key) f.new }
{
    if is_key {
        f.write_str("k")
    } else {
        f.write_str("v")
    }
}

// A record as text: its fields in parentheses, with `-` for each undefined field.
#[derive(Drop)]
pub(crate) struct RecordText<'a, A: AllocHandle>(pub(crate) &'a RecordRef<'a, A>);

impl<'a, A: AllocHandle> Display for RecordText<'a, A> {
    ghost use Rattle.std.specs.Prelude.{Some};
    ghost use Rattle.cap_show.specs.ShowText.{record_text};

    ghost output = { λ shown. Some (record_text shown.0.now) };

    fn fmt<W: Write>(&self, f: &mut Formatter<W>) -> fmt::Result {
        f.write_str("(")?;
        write_fields(f, self.0)?;
        f.write_str(")")
    }
}

// Writes the fields with commas between them.
fn write_fields<A: AllocHandle, W: Write>(
    f: &mut Formatter<W>,
    fields: &RecordRef<'_, A>,
) -> fmt::Result
    ensures { WritesOnOk W.write_str_gives f.old result
        (join_by spec.field_text (codes ",") fields.now) f.new }
{
    let mut rest = fields.copy();
    match rest.next_field() {
        Some(first) => {
            write_field::<A, W>(f, first)?;
            write_more_fields(f, rest)
        }
        None => Ok(()),
    }
}

// Writes the fields, each after a comma.
fn write_more_fields<A: AllocHandle, W: Write>(
    f: &mut Formatter<W>,
    fields: RecordRef<'_, A>,
) -> fmt::Result
    ensures { WritesOnOk W.write_str_gives f.old result
        (flat_map (λ field. codes "," ++ spec.field_text field) fields.entry) f.new }
{
    for field in fields {
        write_next_field::<A, W>(f, field)?;
    }
    Ok(())
}

fn write_next_field<A: AllocHandle, W: Write>(
    f: &mut Formatter<W>,
    field: Option<ValueRef<'_>>,
) -> fmt::Result
    ensures { WritesOnOk W.write_str_gives f.old result
        (codes "," ++ spec.field_text {A = A} (field_of field.entry)) f.new }
{
    f.write_str(",")?;
    write_field::<A, W>(f, field)
}

fn write_field<A: AllocHandle, W: Write>(
    f: &mut Formatter<W>,
    field: Option<ValueRef<'_>>,
) -> fmt::Result
    ensures { WritesOnOk W.write_str_gives f.old result (spec.field_text {A = A} (field_of field.entry)) f.new }
{
    match field {
        Some(value) => ValueText::<A>::of_ref(value).fmt(f),
        None => f.write_str("-"),
    }
}

// The defined fields of a record as text, in parentheses.
#[derive(Drop)]
pub(crate) struct DefinedText<'a, A: AllocHandle>(pub(crate) &'a RecordRef<'a, A>);

impl<'a, A: AllocHandle> Display for DefinedText<'a, A> {
    ghost use Rattle.std.specs.Prelude.{Some};
    ghost use Rattle.cap_show.specs.ShowText.{defined_text};

    ghost output = { λ shown. Some (defined_text shown.0.now) };

    fn fmt<W: Write>(&self, f: &mut Formatter<W>) -> fmt::Result {
        f.write_str("(")?;
        write_defined(f, self.0)?;
        f.write_str(")")
    }
}

// Writes the defined fields with commas between them.
fn write_defined<A: AllocHandle, W: Write>(
    f: &mut Formatter<W>,
    fields: &RecordRef<'_, A>,
) -> fmt::Result
    ensures { WritesOnOk W.write_str_gives f.old result
        (join_by spec.value_text (codes ",") (filter_map (λ field. field) fields.now)) f.new }
{
    let mut is_first = true;
    for field in fields.copy() {
        write_if_defined::<A, W>(f, &mut is_first, field)?;
    }
    Ok(())
}

// Writes a field if it is defined, after a comma unless it is the first.
fn write_if_defined<A: AllocHandle, W: Write>(
    f: &mut Formatter<W>,
    is_first: &mut bool,
    field: Option<ValueRef<'_>>,
) -> fmt::Result
    ensures text { WritesOnOk W.write_str_gives f.old result
        (next_text (spec.value_text {A = A}) is_first.old (field_of field.entry)) f.new }
    ensures first { is_first.new ≡ is_first_after is_first.old (field_of {A = A} field.entry) }
{
    match field {
        Some(value) => {
            let is_first_value = *is_first;
            *is_first = false;
            write_value::<A, W>(f, is_first_value, value)
        }
        None => Ok(()),
    }
}

// Writes a value, and a comma before it if another comes before.
fn write_value<A: AllocHandle, W: Write>(
    f: &mut Formatter<W>,
    is_first: bool,
    value: ValueRef<'_>,
) -> fmt::Result
    ensures { WritesOnOk W.write_str_gives f.old result
        (comma_text is_first ++ spec.value_text {A = A} (value_of value.entry)) f.new }
{
    write_comma(f, is_first)?;
    ValueText::<A>::of_ref(value).fmt(f)
}

pub(crate) fn write_comma<W: Write>(f: &mut Formatter<W>, is_first: bool) -> fmt::Result
    ensures { WritesOnOk W.write_str_gives f.old result (comma_text is_first) f.new }
{
    if is_first { Ok(()) } else { f.write_str(",") }
}

/// The line of a group as text: its table and its columns.
#[derive(Drop)]
pub struct GroupText<'a, A: AllocHandle> {
    table: &'a Name<A>,
    schema: &'a Schema<A>,
}

impl<'a, A: AllocHandle> GroupText<'a, A> {
    /// The line of a group of this table.
    pub fn of(table: &'a Name<A>, schema: &'a Schema<A>) -> Self
        ensures table { result.table.now ≡ table.now }
        ensures schema { result.schema.now ≡ schema.now }
    {
        GroupText { table, schema }
    }
}

impl<'a, A: AllocHandle> Display for GroupText<'a, A> {
    ghost use Rattle.std.specs.Prelude.{Some};
    ghost use Rattle.cap_show.specs.ShowText.{head_text};

    ghost output = { λ shown. Some (head_text shown.table.now shown.schema.now) };

    fn fmt<W: Write>(&self, f: &mut Formatter<W>) -> fmt::Result {
        let columns = SchemaText(self.schema);
        write!(f, "group {} {columns}\n", self.table.as_str())
    }
}

/// The line of a change of a changeset as text: its kind, `direct` or `indirect`, and its fields in
/// parentheses, with `-` for each undefined field.
#[derive(Drop)]
pub struct ChangeText<'a, A: AllocHandle>(pub &'a EntryRef<'a, RowChange<A>>);

impl<'a, A: AllocHandle> Display for ChangeText<'a, A> {
    ghost use Rattle.std.specs.Prelude.{Some};
    ghost use Rattle.cap_show.specs.ShowText.{change_text};

    ghost output = { λ shown. Some (change_text shown.0.now) };

    fn fmt<W: Write>(&self, f: &mut Formatter<W>) -> fmt::Result {
        match self.0.read() {
            ChangeRef::Insert { indirect, new } => {
                let flag = flag_text(indirect);
                write!(f, "insert {flag} {}\n", RecordText(&new))
            }
            ChangeRef::Update { indirect, old, new } => {
                let flag = flag_text(indirect);
                let (old, new) = (RecordText(&old), RecordText(&new));
                write!(f, "update {flag} old {old} new {new}\n")
            }
            ChangeRef::Delete { indirect, old } => {
                let flag = flag_text(indirect);
                write!(f, "delete {flag} {}\n", RecordText(&old))
            }
        }
    }
}

/// The line of a change of a patchset as text: an update has its key and its new values, a delete its key.
#[derive(Drop)]
pub struct PatchText<'a, A: AllocHandle>(pub &'a EntryRef<'a, Patch<A>>);

impl<'a, A: AllocHandle> Display for PatchText<'a, A> {
    ghost use Rattle.std.specs.Prelude.{Some};
    ghost use Rattle.cap_show.specs.ShowText.{patch_text};

    ghost output = { λ shown. Some (patch_text shown.0.now) };

    fn fmt<W: Write>(&self, f: &mut Formatter<W>) -> fmt::Result {
        match self.0.read() {
            PatchRef::Insert { indirect, new } => {
                let flag = flag_text(indirect);
                write!(f, "insert {flag} {}\n", RecordText(&new))
            }
            PatchRef::Update { indirect, new } => {
                let flag = flag_text(indirect);
                write!(f, "update {flag} {}\n", RecordText(&new))
            }
            PatchRef::Delete { indirect, key } => {
                let flag = flag_text(indirect);
                write!(f, "delete {flag} {}\n", DefinedText(&key))
            }
        }
    }
}

fn flag_text(indirect: bool) -> &'static str
    ensures { result.now ≡ spec.flag_text indirect }
{
    if indirect { "indirect" } else { "direct" }
}
