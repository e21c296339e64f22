//! What a call looks at.
ghost use Rattle.std.specs.Prelude.{◌≡◌, ◌∷◌, [], ◌++◌, length, Some, None, IfOk, OnOk, IsTrue};
ghost use Rattle.std.specs.Prelude.{if◌then◌else◌};
ghost use Rattle.cap_row.specs.Key.{key_of};
ghost use Rattle.cap_row.specs.Row.{are_columns, columns_of, row_with};
ghost use Rattle.cap_table.specs.Operation.{key_of_name, row_of};
ghost use Rattle.cap_txn.specs.Calls.{items_at};
ghost use Rattle.cap_txn.specs.Footprint.{action_items, moved_items, op_items, place_items, read_items};
ghost use Rattle.cap_txn.specs.Footprint.{updated_items};

use crate::{Asked, Item};
use cap_database::{Action, Assignments, Database, Op};
use cap_row::{Key, Row, are_columns, key_of};
use cap_table::{RowRef, Table};
use cap_value::{AllocHandle, Fault, Name, OutOfMemory};

// What a call looks at in a database, in order.
pub(crate) fn items_at<A: AllocHandle>(
    alloc: A,
    database: &Database<A>,
    call: &Asked<A>,
) -> Result<Vec<Item<A>, A>, OutOfMemory>
    ensures { IfOk result (λ items. items.items ≡ items_at database.now call.now) }
{
    match call {
        Asked::Op(op) => op_items(alloc, database, op),
        Asked::Get(name, row) => {
            let item = Item::Row(name.copy()?, row.copy()?);
            read_items(alloc, database, name, item)
        }
        Asked::Scan(name) => read_items(alloc, database, name, Item::Scan(name.copy()?)),
        Asked::Savepoint | Asked::BackTo(_) => Ok(Vec::new(alloc)),
    }
}

// What a read looks at.
fn read_items<A: AllocHandle>(
    alloc: A,
    database: &Database<A>,
    name: &Name<A>,
    item: Item<A>,
) -> Result<Vec<Item<A>, A>, OutOfMemory>
    ensures { IfOk result (λ items. items.items ≡ read_items database.now name.now item) }
{
    let mut items = Vec::with_capacity(alloc, 2)?;
    items.push(Item::Table(name.copy()?))?;
    if database.table(name).is_some() {
        items.push(item)?;
    }
    Ok(items)
}

// What an operation looks at, in order: its table, the row that it names, and where its new row is to stand.
fn op_items<A: AllocHandle>(
    alloc: A,
    database: &Database<A>,
    op: &Op<A>,
) -> Result<Vec<Item<A>, A>, OutOfMemory>
    ensures { IfOk result (λ items. items.items ≡ op_items database.now op.now) }
{
    let mut items = Vec::with_capacity(alloc, 3)?;
    items.push(Item::Table(op.table.copy()?))?;
    if let Some(table) = database.table(&op.table) {
        push_action(alloc, &mut items, &op.table, table, &op.action)?;
    }
    Ok(items)
}

fn push_action<A: AllocHandle>(
    alloc: A,
    items: &mut Vec<Item<A>, A>,
    name: &Name<A>,
    table: &Table<A>,
    action: &Action<A>,
) -> Result<(), OutOfMemory>
    ensures { OnOk result (items.new.items ≡ items.old.items ++ action_items name.now table.now action.now) }
{
    match action {
        Action::Insert(row) => push_insert(alloc, items, name, table, row),
        Action::Update(row, fields) => {
            items.push(Item::Row(name.copy()?, row.copy()?))?;
            push_update(alloc, items, name, table, row, fields)
        }
        Action::Delete(row) => {
            items.push(Item::Row(name.copy()?, row.copy()?))?;
            Ok(())
        }
    }
}

fn push_insert<A: AllocHandle>(
    alloc: A,
    items: &mut Vec<Item<A>, A>,
    name: &Name<A>,
    table: &Table<A>,
    row: &Row<A>,
) -> Result<(), OutOfMemory>
    ensures { OnOk result
        (items.new.items ≡ items.old.items ++ action_items name.now table.now (Action.Insert row.now)) }
{
    if row.width() != table.schema().width() {
        return Ok(());
    }
    push_place(items, name, key_of(alloc, table.schema(), row)?)
}

// Where a new row is to stand.
fn push_place<A: AllocHandle>(
    items: &mut Vec<Item<A>, A>,
    name: &Name<A>,
    key: Option<Key<A>>,
) -> Result<(), OutOfMemory>
    ensures { OnOk result (items.new.items ≡ items.old.items ++ place_items name.now key) }
{
    match key {
        Some(key) => items.push(Item::Row(name.copy()?, RowRef::Key(key)))?,
        None => items.push(Item::NextId(name.copy()?))?,
    }
    Ok(())
}

fn push_update<A: AllocHandle>(
    alloc: A,
    items: &mut Vec<Item<A>, A>,
    name: &Name<A>,
    table: &Table<A>,
    row: &RowRef<A>,
    fields: &Assignments<A>,
) -> Result<(), OutOfMemory>
    ensures { OnOk result
        (items.new.items
        ≡ items.old.items ++ (if are_columns (length table.now.schema) (columns_of fields.now)
        then updated_items name.now table.now.schema row.now fields.now (row_of table.now row.now) else [])) }
{
    if !are_columns(table.schema().width(), fields.fields()) {
        return Ok(());
    }
    match table.get(row) {
        Some(old) => push_moved(alloc, items, name, table, row, old, fields),
        None => Ok(()),
    }
}

fn push_moved<A: AllocHandle>(
    alloc: A,
    items: &mut Vec<Item<A>, A>,
    name: &Name<A>,
    table: &Table<A>,
    row: &RowRef<A>,
    old: &Row<A>,
    fields: &Assignments<A>,
) -> Result<(), OutOfMemory>
    requires wide { length old.now ≡ length table.now.schema }
    requires columns { IsTrue (are_columns (length table.now.schema) (columns_of fields.now)) }
    requires found { row_of table.now row.now ≡ Some old.now }
    ensures { OnOk result (items.new.items ≡ items.old.items
        ++ moved_items name.now row.now (key_of table.now.schema (row_with fields.now old.now))) }
{
    let key = updated_key(alloc, table, row, old, fields)?;
    match (row, key) {
        (RowRef::Loose(_), None) => Ok(()),
        (_, key) => push_place(items, name, key),
    }
}

// The key of the row that an update leaves. Where it keeps its key, the row is not made.
fn updated_key<A: AllocHandle>(
    alloc: A,
    table: &Table<A>,
    row: &RowRef<A>,
    old: &Row<A>,
    fields: &Assignments<A>,
) -> Result<Option<Key<A>>, OutOfMemory>
    requires wide { length old.now ≡ length table.now.schema }
    requires columns { IsTrue (are_columns (length table.now.schema) (columns_of fields.now)) }
    requires found { row_of table.now row.now ≡ Some old.now }
    ensures { IfOk result (λ key. key ≡ key_of table.now.schema (row_with fields.now old.now)) }
{
    // For the proof: a clause of `keyed` says that each row stands under its own key.
    let _rows = table.keyed();
    if table.keeps_key(fields.fields()) {
        return key_in_name(row);
    }
    let Ok(new) = old.with_fields(alloc, table.schema(), fields.fields()) else {
        return Err(OutOfMemory);
    };
    let key = key_of(alloc, table.schema(), &new)?;
    Ok(key)
}

fn key_in_name<A: AllocHandle>(row: &RowRef<A>) -> Result<Option<Key<A>>, OutOfMemory>
    ensures { IfOk result (λ key. key ≡ key_of_name row.now) }
{
    match row {
        RowRef::Key(key) => Ok(Some(key.copy()?)),
        RowRef::Loose(_) => Ok(None),
    }
}
