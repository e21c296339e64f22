//! Operations on rows that have a key, each by one search of the tree. The tree asks the table's rule, which
//! judges the present row before it asks the caller's hook.
ghost use Rattle.std.specs.Prelude.{◌≡◌, Result, Ok, Err, Some, None, IfOk, IfErr, OnOk, OnErr, IsTrue};
ghost use Rattle.std.specs.Prelude.{length, get_or, is_some, option_map, false, if◌then◌else◌};
ghost use Rattle.std.specs.List.{list_any};
ghost use Rattle.cap_row.specs.Fields.{Fields};
ghost use Rattle.cap_row.specs.Row.{row_with};
ghost use Rattle.cap_row.specs.Key.{fields_cmp};
ghost use Rattle.cap_tree.specs.Tree.{get};
ghost use Rattle.cap_table.specs.WithHook.{LeavesIfAllowed};
ghost use Rattle.cap_table.specs.ChangeFault.{RefusesAtOnce};
ghost use Rattle.cap_table.specs.Operation.{delete_row, insert_row, update_row};
ghost use Rattle.cap_table.specs.Operation.{refused_delete, refused_update};
ghost use Rattle.cap_table.specs.KeptKey.{keeps_key, new_key};
ghost use Rattle.cap_table.specs.Table.{TableState};

use crate::row_rule::{RowRule, RowUpdate};
use crate::table::Table;
use crate::{ChangeFault, RowRef};
use cap_row::{Key, Row, are_columns, key_of};
use cap_tree::{Hook, Tree};
use cap_value::{AllocHandle, Fault, OutOfMemory, Refusal, Value};

impl<A: AllocHandle> Table<A> {
    /// The primary key of a new row, none where it has none or another width than the table.
    pub fn new_key(&self, row: &Row<A>) -> Result<Option<Key<A>>, OutOfMemory>
        ensures key { IfOk result (λ key. key ≡ new_key self.now row.now) }
        ensures first { ¬ (length row.now ≡ length self.now.schema) → result ≡ Ok None }
    {
        if row.width() != self.schema.width() {
            return Ok(None);
        }
        key_of(self.alloc, &self.schema, row)
    }

    /// Whether none of these fields is of a key column, so that an update with them leaves each row its key.
    pub fn keeps_key(&self, fields: &[(usize, Value<A>)]) -> bool
        ensures { result ≡ keeps_key self.now.schema fields.now }
    {
        !names_key_column(self.schema.flags(), fields)
    }

    /// Adds a row under its key if the hook allows it. Refused with `Duplicate` where a row has the key
    /// already. The hook is asked once, after all memory is reserved, and only if no row has the key. On an
    /// error the table is as before.
    pub fn insert_keyed_hooked<H: Hook<Row<A>>>(
        &mut self,
        key: Key<A>,
        row: Row<A>,
        hook: &mut H,
    ) -> Result<(), ChangeFault<H::Refusal>>
        requires own { new_key self.old row ≡ Some key }
        requires can_ask { (after : TableState A) → insert_row self.old row ≡ Ok after
            → H.can_ask hook.old None (Some row) }
        ensures table { LeavesIfAllowed result (insert_row self.old row) self.new
            (hook.new ≡ hook.old) (λ answer. H.gives hook.old None (Some row) answer hook.new) }
        ensures kept { OnErr result (self.new ≡ self.old) }
        ensures free { OnOk result (get fields_cmp self.old.keyed key ≡ None) }
    {
        let mut rule = RowRule { is_new: true, hook };
        match self.keyed.insert_hooked(key, row, &mut rule) {
            Ok(_) => Ok(()),
            Err(Fault::Refused(why)) => Err(why),
            Err(Fault::OutOfMemory) => Err(ChangeFault::OutOfMemory),
        }
    }

    /// Removes the row of this key if the hook allows it, with `delete`'s refusals. The hook is shown the
    /// row. On an error the table is as before.
    pub fn delete_keyed_hooked<H: Hook<Row<A>>>(
        &mut self,
        key: &Key<A>,
        hook: &mut H,
    ) -> Result<(), ChangeFault<H::Refusal>>
        requires { (after : TableState A) → delete_row self.old (RowRef.Key key.now) ≡ Ok after
            → H.can_ask hook.old (get fields_cmp self.old.keyed key.now) None }
        ensures table { LeavesIfAllowed result (delete_row self.old (RowRef.Key key.now)) self.new
            (hook.new ≡ hook.old)
            (λ answer. H.gives hook.old (get fields_cmp self.old.keyed key.now) None answer hook.new) }
        ensures kept { OnErr result (self.new ≡ self.old) }
        ensures first { RefusesAtOnce (refused_delete self.old (RowRef.Key key.now)) result }
    {
        let mut rule = RowRule {
            is_new: false,
            hook,
        };
        match self.keyed.remove_hooked(key, &mut rule) {
            Ok(_) => Ok(()),
            Err(Fault::Refused(why)) => Err(why),
            Err(Fault::OutOfMemory) => Err(out_of_memory(&self.keyed, key)),
        }
    }

    /// Sets fields of the row of this key, where that leaves its key, if the hook allows it. The hook is
    /// shown the row before and after. On an error the table is as before.
    pub fn update_kept_hooked<H: Hook<Row<A>>>(
        &mut self,
        key: &Key<A>,
        fields: &[(usize, Value<A>)],
        hook: &mut H,
    ) -> Result<(), ChangeFault<H::Refusal>>
        requires kept { IsTrue (keeps_key self.old.schema fields.now) }
        requires can_ask { (after : TableState A) → update_row self.old (RowRef.Key key.now) fields.now
            ≡ Ok after
            → H.can_ask hook.old (get fields_cmp self.old.keyed key.now)
            (option_map (row_with fields.now) (get fields_cmp self.old.keyed key.now)) }
        ensures table { LeavesIfAllowed result
            (update_row self.old (RowRef.Key key.now) fields.now) self.new
            (hook.new ≡ hook.old)
            (λ answer. H.gives hook.old (get fields_cmp self.old.keyed key.now)
            (option_map (row_with fields.now) (get fields_cmp self.old.keyed key.now)) answer hook.new) }
        ensures kept { OnErr result (self.new ≡ self.old) }
        ensures first { RefusesAtOnce (refused_update self.old (RowRef.Key key.now) fields.now) result }
    {
        if !are_columns(self.schema.width(), fields) {
            return Err(ChangeFault::Refused(Refusal::BadColumn));
        }
        let update = RowUpdate {
            alloc: &self.alloc,
            schema: &self.schema,
            fields,
        };
        let mut rule = RowRule {
            is_new: false,
            hook,
        };
        match self.keyed.modify_hooked(key, &update, &mut rule) {
            Ok(_) => Ok(()),
            Err(Fault::Refused(why)) => Err(why),
            Err(Fault::OutOfMemory) => Err(out_of_memory(&self.keyed, key)),
        }
    }
}

// Out of memory, unless no row has the key: a missing row is refused even then.
fn out_of_memory<A: AllocHandle, E>(keyed: &Tree<Key<A>, Row<A>, A>, key: &Key<A>) -> ChangeFault<E>
    ensures { result ≡ (if is_some (get fields_cmp keyed.now key.now) then ChangeFault.OutOfMemory
        else ChangeFault.Refused Refusal.NoRow) }
{
    match keyed.get(key) {
        Some(_) => ChangeFault::OutOfMemory,
        None => ChangeFault::Refused(Refusal::NoRow),
    }
}

// Whether some field is of a key column.
fn names_key_column<A: AllocHandle>(flags: &[bool], fields: &[(usize, Value<A>)]) -> bool
    ensures { result ≡ list_any (λ field. get_or flags.now field.0 false) fields.now }
{
    let Some((first, rest)) = fields.split_first() else {
        return false;
    };
    is_key_column(flags, first.0) || names_key_column(flags, rest)
}

fn is_key_column(flags: &[bool], column: usize) -> bool
    ensures { result ≡ get_or flags.now column false }
{
    match flags.get(column) {
        Some(key) => *key,
        None => false,
    }
}
