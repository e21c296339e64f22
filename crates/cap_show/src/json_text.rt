//! Changesets and patchsets as JSON.
ghost use Rattle.std.specs.Prelude.{◌≡◌, ◌++◌, Bool, IfOk, List, codes, ℕ, string_bytes};
ghost use Rattle.std.specs.List.{flat_map};
ghost use Rattle.cap_field.specs.FieldReading.{value_of};
ghost use Rattle.cap_show.specs.Json as spec;
ghost use Rattle.cap_show.specs.Json.{Appends};
ghost use Rattle.json.specs.Token.{Token};

use cap_changes::{
    ChangeList, ChangeRef, Entry, EntryRef, GroupList, Patch, PatchList, PatchRef, RecordRef,
    RowChange, TableGroup,
};
use cap_field::ValueRef;
use cap_row::Schema;
use cap_value::{AllocHandle, Name, OutOfMemory, Value};
use itoa::Buffer;
use json::Writer;

/// A changeset as JSON, on a line: an array with an object for each change.
///
/// An object has the `table`, the `op` (`insert`, `update` or `delete`), whether the change is `indirect`,
/// the names of the `key` columns, and its `old` and `new` records. Columns are `c0`, `c1` and so on. A value
/// is null, a number, a string, or `{"blob":..}` with hex digits. Undefined fields are left out.
pub fn changeset_json<A: AllocHandle>(
    alloc: A,
    changes: &ChangeList<A>,
) -> Result<Vec<u8, A>, OutOfMemory>
    ensures { IfOk result (λ text. text.items ≡ spec.list_text spec.change changes.now) }
{
    list_json::<RowChange<A>, A>(alloc, changes)
}

/// A patchset as JSON, as a changeset is: an update has the key and the new values in its `new` record, a
/// delete the key in its `old` one.
pub fn patchset_json<A: AllocHandle>(
    alloc: A,
    patches: &PatchList<A>,
) -> Result<Vec<u8, A>, OutOfMemory>
    ensures { IfOk result (λ text. text.items ≡ spec.list_text spec.patch patches.now) }
{
    list_json::<Patch<A>, A>(alloc, patches)
}

// What a list holds, as JSON.
trait JsonEntry<A: AllocHandle>: Entry {
    // The tokens of one, of a table of this name and with these key flags.
    ghost tokens: { List ℕ → List Bool → Self → List Token };

    // Writes it.
    fn write_json(
        change: &EntryRef<'_, Self>,
        alloc: A,
        writer: &mut Writer<A>,
        table: &Name<A>,
        schema: &Schema<A>,
    ) -> Result<(), OutOfMemory>
    where
        Self: Sized,
        ensures { Appends result writer.old writer.new (tokens table.now schema.now change.now) };
}

impl<A: AllocHandle> JsonEntry<A> for RowChange<A> {
    ghost use Rattle.cap_show.specs.Json.{change};

    ghost tokens = { change };

    fn write_json(
        change: &EntryRef<'_, Self>,
        alloc: A,
        writer: &mut Writer<A>,
        table: &Name<A>,
        schema: &Schema<A>,
    ) -> Result<(), OutOfMemory> {
        match change.read() {
            ChangeRef::Insert { indirect, new } => {
                write_insert(alloc, writer, table, schema, indirect, &new)
            }
            ChangeRef::Update { indirect, old, new } => {
                write_head(alloc, writer, table, schema, "update", indirect)?;
                write_old_and_new(alloc, writer, &old, &new)
            }
            ChangeRef::Delete { indirect, old } => {
                write_delete(alloc, writer, table, schema, indirect, &old)
            }
        }
    }
}

impl<A: AllocHandle> JsonEntry<A> for Patch<A> {
    ghost use Rattle.cap_show.specs.Json.{patch};

    ghost tokens = { patch };

    fn write_json(
        change: &EntryRef<'_, Self>,
        alloc: A,
        writer: &mut Writer<A>,
        table: &Name<A>,
        schema: &Schema<A>,
    ) -> Result<(), OutOfMemory> {
        match change.read() {
            PatchRef::Insert { indirect, new } => {
                write_insert(alloc, writer, table, schema, indirect, &new)
            }
            PatchRef::Update { indirect, new } => {
                write_head(alloc, writer, table, schema, "update", indirect)?;
                write_last(alloc, writer, "new", &new)
            }
            PatchRef::Delete { indirect, key } => {
                write_delete(alloc, writer, table, schema, indirect, &key)
            }
        }
    }
}

/// Writes a change of a changeset to this table, as an object.
pub fn write_change_json<A: AllocHandle>(
    alloc: A,
    writer: &mut Writer<A>,
    table: &Name<A>,
    schema: &Schema<A>,
    change: &EntryRef<'_, RowChange<A>>,
) -> Result<(), OutOfMemory>
    ensures { Appends result writer.old writer.new (spec.change table.now schema.now change.now) }
{
    RowChange::write_json(change, alloc, writer, table, schema)
}

/// Writes a change of a patchset to this table, as an object.
pub fn write_patch_json<A: AllocHandle>(
    alloc: A,
    writer: &mut Writer<A>,
    table: &Name<A>,
    schema: &Schema<A>,
    patch: &EntryRef<'_, Patch<A>>,
) -> Result<(), OutOfMemory>
    ensures { Appends result writer.old writer.new (spec.patch table.now schema.now patch.now) }
{
    Patch::write_json(patch, alloc, writer, table, schema)
}

// The text of a list.
fn list_json<C: JsonEntry<A>, A: AllocHandle>(
    alloc: A,
    list: &GroupList<C, A>,
) -> Result<Vec<u8, A>, OutOfMemory>
    ensures { IfOk result (λ text. text.items ≡ spec.list_text C.tokens list.now) }
{
    let mut writer = Writer::new(Vec::new(alloc));
    writer.begin_array()?;
    write_groups(alloc, &mut writer, list.groups())?;
    writer.end_array()?;
    let mut text = writer.into_inner();
    text.push(b'\n')?;
    Ok(text)
}

fn write_groups<C: JsonEntry<A>, A: AllocHandle>(
    alloc: A,
    writer: &mut Writer<A>,
    groups: &[TableGroup<C, A>],
) -> Result<(), OutOfMemory>
    ensures { Appends result writer.old writer.new (flat_map (spec.group C.tokens) groups.now) }
{
    for group in groups {
        write_group(alloc, writer, group)?;
    }
    Ok(())
}

fn write_group<C: JsonEntry<A>, A: AllocHandle>(
    alloc: A,
    writer: &mut Writer<A>,
    group: &TableGroup<C, A>,
) -> Result<(), OutOfMemory>
    ensures { Appends result writer.old writer.new (spec.group C.tokens group.now) }
{
    let (table, schema) = (group.table(), group.schema());
    for change in group.changes() {
        C::write_json(&change, alloc, writer, table, schema)?;
    }
    Ok(())
}

fn write_insert<A: AllocHandle>(
    alloc: A,
    writer: &mut Writer<A>,
    table: &Name<A>,
    schema: &Schema<A>,
    indirect: bool,
    new: &RecordRef<'_, A>,
) -> Result<(), OutOfMemory>
    ensures { Appends result writer.old writer.new
        (spec.head table.now schema.now (codes "insert") indirect ++ spec.last (codes "new") new.now) }
{
    write_head(alloc, writer, table, schema, "insert", indirect)?;
    write_last(alloc, writer, "new", new)
}

fn write_delete<A: AllocHandle>(
    alloc: A,
    writer: &mut Writer<A>,
    table: &Name<A>,
    schema: &Schema<A>,
    indirect: bool,
    old: &RecordRef<'_, A>,
) -> Result<(), OutOfMemory>
    ensures { Appends result writer.old writer.new
        (spec.head table.now schema.now (codes "delete") indirect ++ spec.last (codes "old") old.now) }
{
    write_head(alloc, writer, table, schema, "delete", indirect)?;
    write_last(alloc, writer, "old", old)
}

// Writes both records of an update, and ends its object.
fn write_old_and_new<A: AllocHandle>(
    alloc: A,
    writer: &mut Writer<A>,
    old: &RecordRef<'_, A>,
    new: &RecordRef<'_, A>,
) -> Result<(), OutOfMemory>
    ensures { Appends result writer.old writer.new
        (spec.member (codes "old") old.now ++ spec.last (codes "new") new.now) }
{
    write_member(alloc, writer, "old", old)?;
    write_last(alloc, writer, "new", new)
}

// Writes the last record of a change, and ends its object.
#[tactic(auto, unfolding(crate::specs::Json::last))]
fn write_last<A: AllocHandle>(
    alloc: A,
    writer: &mut Writer<A>,
    name: &str,
    of: &RecordRef<'_, A>,
) -> Result<(), OutOfMemory>
    ensures { Appends result writer.old writer.new (spec.last name.now of.now) }
{
    write_member(alloc, writer, name, of)?;
    writer.end_object()
}

// Begins the object of a change.
#[tactic(auto, unfolding(crate::specs::Json::head))]
fn write_head<A: AllocHandle>(
    alloc: A,
    writer: &mut Writer<A>,
    table: &Name<A>,
    schema: &Schema<A>,
    op: &str,
    indirect: bool,
) -> Result<(), OutOfMemory>
    ensures { Appends result writer.old writer.new (spec.head table.now schema.now op.now indirect) }
{
    writer.begin_object()?;
    write_text_member(writer, "table", table.as_str())?;
    write_text_member(writer, "op", op)?;
    write_indirect(writer, indirect)?;
    write_key_member(alloc, writer, schema.flags())
}

/// Writes a member of an object that is a string.
#[tactic(auto, unfolding(crate::specs::Json::text_member))]
pub fn write_text_member<A: AllocHandle>(
    writer: &mut Writer<A>,
    name: &str,
    text: &str,
) -> Result<(), OutOfMemory>
    ensures { Appends result writer.old writer.new (spec.text_member name.now text.now) }
{
    writer.key(name)?;
    writer.string(text)
}

#[tactic(auto, unfolding(crate::specs::Json::indirect_member))]
fn write_indirect<A: AllocHandle>(writer: &mut Writer<A>, indirect: bool) -> Result<(), OutOfMemory>
    ensures { Appends result writer.old writer.new (spec.indirect_member indirect) }
{
    writer.key("indirect")?;
    writer.boolean(indirect)
}

// Writes the names of the key columns as a member.
#[tactic(auto, unfolding(crate::specs::Json::key_member))]
fn write_key_member<A: AllocHandle>(
    alloc: A,
    writer: &mut Writer<A>,
    flags: &[bool],
) -> Result<(), OutOfMemory>
    ensures { Appends result writer.old writer.new (spec.key_member flags.now) }
{
    writer.key("key")?;
    writer.begin_array()?;
    write_key(alloc, writer, flags)?;
    writer.end_array()
}

// Writes the names of the key columns.
fn write_key<A: AllocHandle>(
    alloc: A,
    writer: &mut Writer<A>,
    flags: &[bool],
) -> Result<(), OutOfMemory>
    ensures { Appends result writer.old writer.new (spec.key_names 0 flags.now) }
{
    for (column, is_key) in flags.iter().enumerate() {
        if *is_key {
            writer.string(column_name(alloc, column)?.as_str())?;
        }
    }
    Ok(())
}

// Writes a record as a member of this name.
#[tactic(auto, unfolding(crate::specs::Json::member))]
fn write_member<A: AllocHandle>(
    alloc: A,
    writer: &mut Writer<A>,
    name: &str,
    of: &RecordRef<'_, A>,
) -> Result<(), OutOfMemory>
    ensures { Appends result writer.old writer.new (spec.member name.now of.now) }
{
    writer.key(name)?;
    writer.begin_object()?;
    write_fields(alloc, writer, of)?;
    writer.end_object()
}

// Writes the defined fields of a record.
fn write_fields<A: AllocHandle>(
    alloc: A,
    writer: &mut Writer<A>,
    fields: &RecordRef<'_, A>,
) -> Result<(), OutOfMemory>
    ensures { Appends result writer.old writer.new (spec.fields 0 fields.now) }
{
    let mut rest = fields.copy();
    for column in 0..fields.width() {
        if let Some(Some(value)) = rest.next_field() {
            writer.key(column_name(alloc, column)?.as_str())?;
            write_json_value(alloc, writer, value)?;
        }
    }
    Ok(())
}

/// Writes a value as JSON: null, a number, a string, or `{"blob":..}` with hex digits.
pub fn write_json_value<A: AllocHandle>(
    alloc: A,
    writer: &mut Writer<A>,
    value: ValueRef<'_>,
) -> Result<(), OutOfMemory>
    ensures { Appends result writer.old writer.new (spec.value {A = A} (value_of value.entry)) }
{
    match value {
        ValueRef::Null => writer.null(),
        ValueRef::Int(number) => writer.i64(number),
        ValueRef::Text(text) => writer.string(text),
        ValueRef::Blob(bytes) => write_blob(alloc, writer, bytes),
    }
}

fn write_blob<A: AllocHandle>(
    alloc: A,
    writer: &mut Writer<A>,
    bytes: &[u8],
) -> Result<(), OutOfMemory>
    ensures { Appends result writer.old writer.new (spec.blob bytes.now) }
{
    let digits = hex::encode(alloc, bytes)?;
    writer.begin_object()?;
    writer.key("blob")?;
    writer.string(digits.as_str())?;
    writer.end_object()
}

// The name of a column, by its number from 0.
fn column_name<A: AllocHandle>(alloc: A, column: usize) -> Result<String<A>, OutOfMemory>
    ensures { IfOk result (λ name. string_bytes name ≡ spec.column_name column) }
{
    let mut name = String::new(alloc);
    name.push_str("c")?;
    name.push_str(Buffer::new().format(column))?;
    Ok(name)
}
