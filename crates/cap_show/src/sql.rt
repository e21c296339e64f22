//! Changesets and patchsets as SQL statements.
ghost use Rattle.std.specs.Fmt.{WritesOnOk};
ghost use Rattle.std.specs.Io.KnownBytes.{Appends};
ghost use Rattle.std.specs.List.{flat_map};
ghost use Rattle.std.specs.Prelude.{◌≡◌, ◌++◌, Bool, List, IfOk, OnOk, false, option_copied, ℕ};
ghost use Rattle.cap_field.specs.FieldReading.{value_of};
ghost use Rattle.cap_changes.specs.FieldReading.{field_of};
ghost use Rattle.cap_show.specs.Code.DefinedFields.{is_first_after, next_text};
ghost use Rattle.cap_show.specs.Code.Equations.{asked_value, next_equation, separator_before};
ghost use Rattle.cap_show.specs.Code.Equations as code;
ghost use Rattle.cap_show.specs.Sql as spec;

use crate::text::{write_blob, write_comma, write_quoted};
use cap_changes::{
    ChangeList, ChangeRef, Entry, EntryRef, GroupList, Patch, PatchList, PatchRef, RecordRef,
    RowChange, TableGroup,
};
use cap_field::ValueRef;
use cap_row::Schema;
use cap_value::{AllocHandle, Name, OutOfMemory};
use std::fmt::{Display, Formatter};
use std::io::Write;
use std::marker::PhantomData;
use std::{fmt, io};

/// A changeset as SQL, as SQLite's program `changeset` does it: a statement for each change, between `BEGIN`
/// and `COMMIT`. Columns are `c0`, `c1` and so on.
///
/// An update sets the modified fields, and has no statement where there is none. Updates and deletes name
/// their row by its key alone.
pub fn changeset_sql<A: AllocHandle>(
    alloc: A,
    changes: &ChangeList<A>,
) -> Result<Vec<u8, A>, OutOfMemory>
    ensures { IfOk result (λ sql. sql.items ≡ spec.changeset_sql changes.now) }
{
    list_sql::<RowChange<A>, A>(alloc, changes)
}

/// A patchset as SQL, as a changeset is.
pub fn patchset_sql<A: AllocHandle>(
    alloc: A,
    patches: &PatchList<A>,
) -> Result<Vec<u8, A>, OutOfMemory>
    ensures { IfOk result (λ sql. sql.items ≡ spec.patchset_sql patches.now) }
{
    list_sql::<Patch<A>, A>(alloc, patches)
}

// What a list holds, as a statement.
trait SqlEntry<A: AllocHandle>: Entry {
    // The statement of one, of a table of this name and with these key flags.
    ghost sql: { List ℕ → List Bool → Self → List ℕ };

    // Writes it.
    fn write_sql<W: Write>(
        change: &EntryRef<'_, Self>,
        table: &Name<A>,
        schema: &Schema<A>,
        output: &mut W,
    ) -> io::Result<()>
    where
        Self: Sized,
        ensures { OnOk result (Appends (W.contents output.old) (W.contents output.new)
            (sql table.now schema.now change.now)) };
}

impl<A: AllocHandle> SqlEntry<A> for RowChange<A> {
    ghost use Rattle.cap_show.specs.Sql.{change_sql};

    ghost sql = { change_sql };

    fn write_sql<W: Write>(
        change: &EntryRef<'_, Self>,
        table: &Name<A>,
        schema: &Schema<A>,
        output: &mut W,
    ) -> io::Result<()> {
        match change.read() {
            ChangeRef::Insert { new, .. } => write_insert(table, &new, output),
            ChangeRef::Update { old, new, .. } => write_update(table, schema, &old, &new, output),
            ChangeRef::Delete { old, .. } => write_delete(table, schema, &old, output),
        }
    }
}

impl<A: AllocHandle> SqlEntry<A> for Patch<A> {
    ghost use Rattle.cap_show.specs.Sql.{patch_sql};

    ghost sql = { patch_sql };

    fn write_sql<W: Write>(
        change: &EntryRef<'_, Self>,
        table: &Name<A>,
        schema: &Schema<A>,
        output: &mut W,
    ) -> io::Result<()> {
        match change.read() {
            PatchRef::Insert { new, .. } => write_insert(table, &new, output),
            PatchRef::Update { new, .. } => write_update(table, schema, &new, &new, output),
            PatchRef::Delete { key, .. } => write_delete(table, schema, &key, output),
        }
    }
}

fn list_sql<C: SqlEntry<A>, A: AllocHandle>(
    alloc: A,
    list: &GroupList<C, A>,
) -> Result<Vec<u8, A>, OutOfMemory>
    ensures { IfOk result (λ sql. sql.items ≡ spec.list_sql C.sql list.now) }
{
    let mut sql = Vec::new(alloc);
    // A vector fails at a write only out of memory.
    match write_list(list, &mut sql) {
        Ok(()) => Ok(sql),
        Err(_) => Err(OutOfMemory),
    }
}

fn write_list<C: SqlEntry<A>, A: AllocHandle, W: Write>(
    list: &GroupList<C, A>,
    output: &mut W,
) -> io::Result<()>
    ensures { OnOk result (Appends (W.contents output.old) (W.contents output.new)
        (spec.list_sql C.sql list.now)) }
{
    writeln!(output, "BEGIN;")?;
    write_groups(list.groups(), output)?;
    writeln!(output, "COMMIT;")
}

fn write_groups<C: SqlEntry<A>, A: AllocHandle, W: Write>(
    groups: &[TableGroup<C, A>],
    output: &mut W,
) -> io::Result<()>
    ensures { OnOk result (Appends (W.contents output.old) (W.contents output.new)
        (flat_map (spec.group_sql C.sql) groups.now)) }
{
    for group in groups {
        write_group(group, output)?;
    }
    Ok(())
}

fn write_group<C: SqlEntry<A>, A: AllocHandle, W: Write>(
    group: &TableGroup<C, A>,
    output: &mut W,
) -> io::Result<()>
    ensures { OnOk result (Appends (W.contents output.old) (W.contents output.new)
        (spec.group_sql C.sql group.now)) }
{
    for change in group.changes() {
        C::write_sql(&change, group.table(), group.schema(), output)?;
    }
    Ok(())
}

fn write_insert<A: AllocHandle, W: Write>(
    table: &Name<A>,
    new: &RecordRef<'_, A>,
    output: &mut W,
) -> io::Result<()>
    ensures { OnOk result (Appends (W.contents output.old) (W.contents output.new)
        (spec.insert_text table.now new.now)) }
{
    let (name, values) = (Identifier(table.as_str()), ValueList(new));
    writeln!(output, "INSERT INTO {name} VALUES({values});")
}

// The record `key` has the key fields, and `new` the modified fields.
fn write_update<A: AllocHandle, W: Write>(
    table: &Name<A>,
    schema: &Schema<A>,
    key: &RecordRef<'_, A>,
    new: &RecordRef<'_, A>,
    output: &mut W,
) -> io::Result<()>
    ensures { OnOk result (Appends (W.contents output.old) (W.contents output.new)
        (spec.update_text table.now schema.now key.now new.now)) }
{
    if modifies_nothing(schema.flags(), new) {
        return Ok(());
    }
    write_set(table, schema, key, new, output)
}

fn write_set<A: AllocHandle, W: Write>(
    table: &Name<A>,
    schema: &Schema<A>,
    key: &RecordRef<'_, A>,
    new: &RecordRef<'_, A>,
    output: &mut W,
) -> io::Result<()>
    ensures { OnOk result (Appends (W.contents output.old) (W.contents output.new)
        (spec.set_text table.now schema.now key.now new.now)) }
{
    let name = Identifier(table.as_str());
    let set = Equations {
        schema,
        fields: new,
        of_key: false,
    };
    let row = Equations {
        schema,
        fields: key,
        of_key: true,
    };
    writeln!(output, "UPDATE {name} SET {set} WHERE {row};")
}

fn write_delete<A: AllocHandle, W: Write>(
    table: &Name<A>,
    schema: &Schema<A>,
    key: &RecordRef<'_, A>,
    output: &mut W,
) -> io::Result<()>
    ensures { OnOk result (Appends (W.contents output.old) (W.contents output.new)
        (spec.delete_text table.now schema.now key.now)) }
{
    let name = Identifier(table.as_str());
    let row = Equations {
        schema,
        fields: key,
        of_key: true,
    };
    writeln!(output, "DELETE FROM {name} WHERE {row};")
}

// Whether no field outside the key is defined.
fn modifies_nothing<A: AllocHandle>(flags: &[bool], fields: &RecordRef<'_, A>) -> bool
    ensures { result ≡ code.is_empty (spec.equations false 0 flags.now fields.now) }
{
    let mut rest = fields.copy();
    for is_key in flags {
        let Some(field) = rest.next_field() else {
            return true;
        };
        if asked_value::<A>(false, *is_key, field).is_some() {
            return false;
        }
    }
    true
}

// The value of a field, if it is defined and its column is in the key, or outside it, as is asked for.
fn asked_value<A: AllocHandle>(
    of_key: bool,
    is_key: bool,
    field: Option<ValueRef<'_>>,
) -> Option<ValueRef<'_>>
    ensures { field_of result ≡ code.asked_value of_key is_key (field_of {A = A} field.entry) }
{
    if is_key == of_key { field } else { None }
}

/// A name between double quotes, with each of those in it doubled.
#[derive(Drop)]
pub struct Identifier<'a>(pub &'a str);

impl<'a> Display for Identifier<'a> {
    ghost use Rattle.std.specs.Prelude.{Some};
    ghost use Rattle.cap_show.specs.Sql.{identifier};

    ghost output = { λ shown. Some (identifier shown.0.now) };

    fn fmt<W: fmt::Write>(&self, f: &mut Formatter<W>) -> fmt::Result {
        write_quoted(f, self.0, '"')
    }
}

// A value as a literal.
#[derive(Drop)]
struct Literal<'a, A: AllocHandle> {
    value: ValueRef<'a>,
    marker: PhantomData<A>,
}

impl<'a, A: AllocHandle> Literal<'a, A> {
    fn of(value: ValueRef<'a>) -> Self
        ensures { value_of {A = A} result.value ≡ value_of value.entry }
    {
        Literal {
            value,
            marker: PhantomData,
        }
    }
}

impl<'a, A: AllocHandle> Display for Literal<'a, A> {
    ghost use Rattle.std.specs.Prelude.{Some};
    ghost use Rattle.cap_show.specs.Sql.{literal};
    ghost use Rattle.cap_field.specs.FieldReading.{value_of};

    ghost output = { λ shown. Some (literal {A = A} (value_of shown.value)) };

    fn fmt<W: fmt::Write>(&self, f: &mut Formatter<W>) -> fmt::Result {
        match self.value {
            ValueRef::Null => f.write_str("NULL"),
            ValueRef::Int(number) => write!(f, "{number}"),
            ValueRef::Text(text) => write_text(f, text),
            ValueRef::Blob(blob) => write_blob(f, blob),
        }
    }
}

// Writes a text as a literal. SQLite reads none behind a zero byte, so a text with one is cast.
fn write_text<W: fmt::Write>(f: &mut Formatter<W>, text: &str) -> fmt::Result
    ensures { WritesOnOk W.write_str_gives f.old result (spec.text_literal text.now) f.new }
{
    if text.as_bytes().contains(&0) {
        write_cast(f, text.as_bytes())
    } else {
        write_quoted(f, text, '\'')
    }
}

fn write_cast<W: fmt::Write>(f: &mut Formatter<W>, bytes: &[u8]) -> fmt::Result
    ensures { WritesOnOk W.write_str_gives f.old result (spec.cast_text bytes.now) f.new }
{
    f.write_str("CAST(")?;
    write_blob(f, bytes)?;
    f.write_str(" AS TEXT)")
}

// The defined fields of a record, with commas between them.
#[derive(Drop)]
struct ValueList<'a, A: AllocHandle>(&'a RecordRef<'a, A>);

impl<'a, A: AllocHandle> Display for ValueList<'a, A> {
    ghost use Rattle.std.specs.Prelude.{Some};
    ghost use Rattle.cap_show.specs.Sql.{values};

    ghost output = { λ shown. Some (values shown.0.now) };

    fn fmt<W: fmt::Write>(&self, f: &mut Formatter<W>) -> fmt::Result {
        write_values(f, self.0)
    }
}

// Writes the defined fields with commas between them.
fn write_values<A: AllocHandle, W: fmt::Write>(
    f: &mut Formatter<W>,
    fields: &RecordRef<'_, A>,
) -> fmt::Result
    ensures { WritesOnOk W.write_str_gives f.old result (spec.values fields.now) f.new }
{
    let mut is_first = true;
    for field in fields.copy() {
        write_if_defined::<A, W>(f, &mut is_first, field)?;
    }
    Ok(())
}

// Writes a field if it is defined, after a comma unless it is the first.
fn write_if_defined<A: AllocHandle, W: fmt::Write>(
    f: &mut Formatter<W>,
    is_first: &mut bool,
    field: Option<ValueRef<'_>>,
) -> fmt::Result
    ensures text { WritesOnOk W.write_str_gives f.old result
        (next_text (spec.literal {A = A}) is_first.old (field_of field.entry)) f.new }
    ensures first { is_first.new ≡ is_first_after is_first.old (field_of {A = A} field.entry) }
{
    match field {
        Some(value) => {
            let is_first_value = *is_first;
            *is_first = false;
            write_comma(f, is_first_value)?;
            Literal::<A>::of(value).fmt(f)
        }
        None => Ok(()),
    }
}

// The defined fields of a record that are in the key, or those that are not, each as `cN=V`.
#[derive(Drop)]
struct Equations<'a, A: AllocHandle> {
    schema: &'a Schema<A>,
    fields: &'a RecordRef<'a, A>,
    of_key: bool,
}

impl<'a, A: AllocHandle> Display for Equations<'a, A> {
    ghost use Rattle.std.specs.Prelude.{Some};
    ghost use Rattle.cap_show.specs.Sql.{joined};

    ghost output = { λ shown. Some (joined shown.of_key shown.schema.now shown.fields.now) };

    fn fmt<W: fmt::Write>(&self, f: &mut Formatter<W>) -> fmt::Result {
        write_equations(f, self.of_key, self.schema.flags(), self.fields)
    }
}

fn write_equations<A: AllocHandle, W: fmt::Write>(
    f: &mut Formatter<W>,
    of_key: bool,
    flags: &[bool],
    fields: &RecordRef<'_, A>,
) -> fmt::Result
    ensures { WritesOnOk W.write_str_gives f.old result (spec.joined of_key flags.now fields.now) f.new }
{
    let mut rest = fields.copy();
    let mut is_first = true;
    for (column, is_key) in flags.iter().enumerate() {
        let Some(field) = rest.next_field() else {
            return Ok(());
        };
        let value = asked_value::<A>(of_key, *is_key, field);
        write_next_equation::<A, W>(f, &mut is_first, of_key, column, value)?;
    }
    Ok(())
}

// Writes a column and its value, if there is one, after a separator unless it is the first.
fn write_next_equation<A: AllocHandle, W: fmt::Write>(
    f: &mut Formatter<W>,
    is_first: &mut bool,
    of_key: bool,
    column: usize,
    value: Option<ValueRef<'_>>,
) -> fmt::Result
    ensures text { WritesOnOk W.write_str_gives f.old result
        (next_equation {A = A} is_first.old of_key column (field_of value.entry)) f.new }
    ensures first { is_first.new ≡ is_first_after is_first.old (field_of {A = A} value.entry) }
{
    match value {
        Some(value) => {
            let is_first_value = *is_first;
            *is_first = false;
            write_separator(f, is_first_value, of_key)?;
            write!(f, "c{column}={}", Literal::<A>::of(value))
        }
        None => Ok(()),
    }
}

fn write_separator<W: fmt::Write>(f: &mut Formatter<W>, is_first: bool, of_key: bool) -> fmt::Result
    ensures { WritesOnOk W.write_str_gives f.old result (separator_before is_first of_key) f.new }
{
    match (is_first, of_key) {
        (true, _) => Ok(()),
        (false, true) => f.write_str(" AND "),
        (false, false) => f.write_str(", "),
    }
}
