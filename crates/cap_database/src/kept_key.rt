//! Operations on a row that has a key and keeps it: each is made in place.
ghost use Rattle.std.specs.Prelude.{◌≡◌, IfOk, OnErr, Ok, Some};
ghost use Rattle.cap_row.specs.Key.{fields_cmp};
ghost use Rattle.cap_tree.specs.Tree.{get};
ghost use Rattle.cap_table.specs.KeptKey.{new_key};
ghost use Rattle.cap_table.specs.ChangeFault.{RefusesAtOnce};
ghost use Rattle.cap_table.specs.Operation.{insert_row};
ghost use Rattle.cap_table.specs.Table.{TableState};
ghost use Rattle.cap_table.specs.WithHook.{LeavesIfAllowed};
ghost use Rattle.cap_database.specs.KeptKey.{kept_in, row_left};
ghost use Rattle.cap_database.specs.Operation.{act, refused_act};

use crate::Action;
use cap_row::{Key, Row};
use cap_table::{ChangeFault, RowRef, Table};
use cap_tree::Hook;
use cap_value::{AllocHandle, OutOfMemory};

// The key of the row that an operation adds, takes out, or changes outside its key.
pub(crate) fn kept_in<A: AllocHandle>(
    table: &Table<A>,
    action: &Action<A>,
) -> Result<Option<Key<A>>, OutOfMemory>
    ensures { IfOk result (λ key. key ≡ kept_in table.now action.now) }
{
    match action {
        Action::Insert(row) => table.new_key(row),
        Action::Update(RowRef::Key(key), fields) => {
            if table.keeps_key(fields.fields()) {
                return Ok(Some(key.copy()?));
            }
            Ok(None)
        }
        Action::Delete(RowRef::Key(key)) => Ok(Some(key.copy()?)),
        Action::Update(RowRef::Loose(_), _) | Action::Delete(RowRef::Loose(_)) => Ok(None),
    }
}

// Makes what such an operation does to its table, if the hook allows it.
pub(crate) fn act_keyed<A: AllocHandle, H: Hook<Row<A>>>(
    table: &mut Table<A>,
    action: &Action<A>,
    key: &Key<A>,
    hook: &mut H,
) -> Result<(), ChangeFault<H::Refusal>>
    requires key { kept_in table.old action.now ≡ Some key.now }
    requires can_ask { (after : TableState A) → act table.old action.now ≡ Ok after
        → H.can_ask hook.old (get fields_cmp table.old.keyed key.now)
        (row_left action.now (get fields_cmp table.old.keyed key.now)) }
    ensures table { LeavesIfAllowed result (act table.old action.now) table.new (hook.new ≡ hook.old)
        (λ answer. H.gives hook.old (get fields_cmp table.old.keyed key.now)
        (row_left action.now (get fields_cmp table.old.keyed key.now)) answer hook.new) }
    ensures kept { OnErr result (table.new ≡ table.old) }
    ensures first { RefusesAtOnce (refused_act table.old action.now) result }
{
    match action {
        Action::Insert(row) => insert_keyed(table, row, key, hook),
        Action::Update(RowRef::Key(own), fields) => {
            table.update_kept_hooked(own, fields.fields(), hook)
        }
        Action::Delete(RowRef::Key(own)) => table.delete_keyed_hooked(own, hook),
        Action::Update(RowRef::Loose(_), _) | Action::Delete(RowRef::Loose(_)) => unreachable!(),
    }
}

fn insert_keyed<A: AllocHandle, H: Hook<Row<A>>>(
    table: &mut Table<A>,
    row: &Row<A>,
    key: &Key<A>,
    hook: &mut H,
) -> Result<(), ChangeFault<H::Refusal>>
    requires key { new_key table.old row.now ≡ Some key.now }
    requires can_ask { (after : TableState A) → insert_row table.old row.now ≡ Ok after
        → H.can_ask hook.old (get fields_cmp table.old.keyed key.now) (Some row.now) }
    ensures table { LeavesIfAllowed result (insert_row table.old row.now) table.new (hook.new ≡ hook.old)
        (λ answer. H.gives hook.old (get fields_cmp table.old.keyed key.now) (Some row.now) answer hook.new) }
    ensures kept { OnErr result (table.new ≡ table.old) }
{
    match (key.copy(), row.copy()) {
        (Ok(key), Ok(row)) => table.insert_keyed_hooked(key, row, hook),
        _ => Err(ChangeFault::OutOfMemory),
    }
}
