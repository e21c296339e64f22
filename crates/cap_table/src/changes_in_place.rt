//! Operations on one table, in place. Each reserves all its memory before it changes anything.
ghost use Rattle.std.specs.Prelude.{◌≡◌, ◌<◌, ◌^◌, length, IfOk, OnOk, OnErr, IsTrue, Some, None, is_some};
ghost use Rattle.std.specs.Ordering.{nat_cmp};
ghost use Rattle.cap_value.specs.Memory.{LeavesUnlessMemory, RefusesFirst};
ghost use Rattle.cap_row.specs.Key.{key_of, fields_cmp};
ghost use Rattle.cap_row.specs.Row.{row_with};
ghost use Rattle.cap_tree.specs.Tree.{get};
ghost use Rattle.cap_table.specs.Operation.{insert_row, update_row, delete_row, moved, placed, under_key};
ghost use Rattle.cap_table.specs.Operation.{under_next_id, with_id, without, row_of, refused_delete};
ghost use Rattle.cap_table.specs.Operation.{refused_insert, refused_update};

use crate::limits::ROW_IDS_END;
use crate::table::Table;
use crate::{Replaced, RowRef};
use cap_row::{Key, Row, are_columns, key_of};
use cap_value::{AllocHandle, Fault, OutOfMemory, Refusal, Value};

impl<A: AllocHandle> Table<A> {
    /// Adds a row, and answers its primary key, or none where it has none and gets the next id.
    ///
    /// Refused with `WrongWidth` where the row has another width than the table, `Duplicate` where a row has
    /// its key already, and `IdsSpent` where it has no key and the last id was given. On an error the table
    /// is as before.
    pub fn insert(&mut self, row: Row<A>) -> Result<Option<Key<A>>, Fault<Refusal>>
        ensures table { LeavesUnlessMemory result (insert_row self.old row) self.new }
        ensures kept { OnErr result (self.new ≡ self.old) }
        ensures key { IfOk result (λ key. key ≡ key_of self.old.schema row) }
        ensures first { RefusesFirst (refused_insert self.old row) result }
    {
        if row.width() != self.schema.width() {
            return Err(Fault::Refused(Refusal::WrongWidth));
        }
        let key = key_of(self.alloc, &self.schema, &row)?;
        let answer = copy_of(&key)?;
        self.place(key, row)?;
        Ok(answer)
    }

    /// Sets fields of the row of this name, each a column, counted from 0, and its new value. Answers the
    /// primary key of the new row, or none, and the old row.
    ///
    /// Refused with `BadColumn` where a column is outside the table or named twice, `NoRow` where no row has
    /// the name, `Duplicate` where another row has the new key, and `IdsSpent` where the row loses its key
    /// and the last id was given. On an error the table is as before.
    pub fn update(
        &mut self,
        name: &RowRef<A>,
        fields: &[(usize, Value<A>)],
    ) -> Result<Replaced<A>, Fault<Refusal>>
        ensures table { LeavesUnlessMemory result (update_row self.old name.now fields.now) self.new }
        ensures kept { OnErr result (self.new ≡ self.old) }
        ensures row { IfOk result (λ replaced. row_of self.old name.now ≡ Some replaced.row) }
        ensures key { IfOk result (λ replaced. replaced.key
            ≡ key_of self.old.schema (row_with fields.now replaced.row)) }
        ensures first { RefusesFirst (refused_update self.old name.now fields.now) result }
    {
        if !are_columns(self.schema.width(), fields) {
            return Err(Fault::Refused(Refusal::BadColumn));
        }
        let Some(old) = self.get(name) else {
            return Err(Fault::Refused(Refusal::NoRow));
        };
        let old = old.copy()?;
        let row = old.with_fields(self.alloc, &self.schema, fields)?;
        let key = key_of(self.alloc, &self.schema, &row)?;
        let answer = copy_of(&key)?;
        self.move_row(name, key, row)?;
        Ok(Replaced {
            key: answer,
            row: old,
        })
    }

    /// Removes the row of this name, and answers it.
    ///
    /// Refused with `NoRow` where no row has the name. On an error the table is as before.
    pub fn delete(&mut self, name: &RowRef<A>) -> Result<Row<A>, Fault<Refusal>>
        ensures table { LeavesUnlessMemory result (delete_row self.old name.now) self.new }
        ensures kept { OnErr result (self.new ≡ self.old) }
        ensures row { IfOk result (λ row. row_of self.old name.now ≡ Some row) }
        ensures first { RefusesFirst (refused_delete self.old name.now) result }
    {
        match self.take(name) {
            Ok(Some(row)) => Ok(row),
            Ok(None) => Err(Fault::Refused(Refusal::NoRow)),
            Err(OutOfMemory) => match self.refused_delete(name) {
                Some(why) => Err(Fault::Refused(why)),
                None => Err(Fault::OutOfMemory),
            },
        }
    }

    // Takes the row of this name out, and answers it, if any.
    fn take(&mut self, name: &RowRef<A>) -> Result<Option<Row<A>>, OutOfMemory>
        ensures table { OnOk result (self.new ≡ without self.old name.now) }
        ensures kept { OnErr result (self.new ≡ self.old) }
        ensures before { IfOk result (λ before. before ≡ row_of self.old name.now) }
    {
        match name {
            RowRef::Key(key) => self.take_keyed(key),
            RowRef::Loose(id) => {
                let before = self.loose.remove(id)?;
                Ok(before)
            }
        }
    }

    // A new row under its key, or where it has none under the next id.
    fn place(&mut self, key: Option<Key<A>>, row: Row<A>) -> Result<(), Fault<Refusal>>
        requires width { length row ≡ length self.old.schema }
        requires key { key_of self.old.schema row ≡ key }
        ensures table { LeavesUnlessMemory result (placed self.old row key) self.new }
        ensures kept { OnErr result (self.new ≡ self.old) }
    {
        match key {
            Some(key) => self.put_new(key, row),
            None => self.put_next(row),
        }
    }

    // The row replaces the row of this name, and has this key or none.
    fn move_row(
        &mut self,
        name: &RowRef<A>,
        key: Option<Key<A>>,
        row: Row<A>,
    ) -> Result<(), Fault<Refusal>>
        requires width { length row ≡ length self.old.schema }
        requires key { key_of self.old.schema row ≡ key }
        requires there { IsTrue (is_some (row_of self.old name.now)) }
        ensures table { LeavesUnlessMemory result (moved self.old name.now row key) self.new }
        ensures kept { OnErr result (self.new ≡ self.old) }
    {
        match (name, key) {
            (RowRef::Key(old), Some(new)) => {
                if *old != new {
                    return self.replace(name, Some(new), row);
                }
                self.put_keyed(new, row)?;
                Ok(())
            }
            (RowRef::Key(_), None) => self.replace(name, None, row),
            (RowRef::Loose(_), Some(new)) => self.replace(name, Some(new), row),
            (RowRef::Loose(id), None) => self.put_back(*id, row),
        }
    }

    // The row of this name is taken out, and the new row gets another key, or another id.
    fn replace(
        &mut self,
        name: &RowRef<A>,
        key: Option<Key<A>>,
        row: Row<A>,
    ) -> Result<(), Fault<Refusal>>
        requires width { length row ≡ length self.old.schema }
        requires key { key_of self.old.schema row ≡ key }
        ensures table { LeavesUnlessMemory result (placed (without self.old name.now) row key) self.new }
        ensures kept { OnErr result (self.new ≡ self.old) }
    {
        let mut next = self.snapshot()?;
        next.take(name)?;
        next.place(key, row)?;
        *self = next;
        Ok(())
    }

    // A row under a key that no row has yet.
    fn put_new(&mut self, key: Key<A>, row: Row<A>) -> Result<(), Fault<Refusal>>
        requires width { length row ≡ length self.old.schema }
        requires key { key_of self.old.schema row ≡ Some key }
        ensures table { LeavesUnlessMemory result
            (under_key (is_some (get fields_cmp self.old.keyed key)) self.old key row) self.new }
        ensures kept { OnErr result (self.new ≡ self.old) }
    {
        if self.keyed().get(&key).is_some() {
            return Err(Fault::Refused(Refusal::Duplicate));
        }
        self.put_keyed(key, row)?;
        Ok(())
    }

    // A row under the next id.
    fn put_next(&mut self, row: Row<A>) -> Result<(), Fault<Refusal>>
        requires width { length row ≡ length self.old.schema }
        requires key { key_of self.old.schema row ≡ None }
        ensures table { LeavesUnlessMemory result (under_next_id self.old row) self.new }
        ensures kept { OnErr result (self.new ≡ self.old) }
    {
        if self.next_id >= ROW_IDS_END {
            return Err(Fault::Refused(Refusal::IdsSpent));
        }
        self.loose.insert(self.next_id, row)?;
        self.next_id += 1;
        Ok(())
    }

    // A loose row that stays loose.
    fn put_back(&mut self, id: u64, row: Row<A>) -> Result<(), Fault<Refusal>>
        requires width { length row ≡ length self.old.schema }
        requires key { key_of self.old.schema row ≡ None }
        requires there { IsTrue (is_some (get nat_cmp self.old.loose id)) }
        ensures table { LeavesUnlessMemory result (Ok (with_id self.old id row)) self.new }
        ensures kept { OnErr result (self.new ≡ self.old) }
    {
        self.loose.insert(id, row)?;
        Ok(())
    }

    /// What an insert is refused before memory is needed.
    pub fn refused_insert(&self, row: &Row<A>) -> Option<Refusal>
        ensures { result ≡ refused_insert self.now row.now }
    {
        if row.width() == self.schema.width() {
            return None;
        }
        Some(Refusal::WrongWidth)
    }

    /// What a delete is refused. It needs no memory.
    pub fn refused_delete(&self, name: &RowRef<A>) -> Option<Refusal>
        ensures { result ≡ refused_delete self.now name.now }
    {
        match self.get(name) {
            Some(_) => None,
            None => Some(Refusal::NoRow),
        }
    }

    /// What an update is refused before memory is needed.
    pub fn refused_update(&self, name: &RowRef<A>, fields: &[(usize, Value<A>)]) -> Option<Refusal>
        ensures { result ≡ refused_update self.now name.now fields.now }
    {
        if !are_columns(self.schema.width(), fields) {
            return Some(Refusal::BadColumn);
        }
        self.refused_delete(name)
    }
}

fn copy_of<A: AllocHandle>(key: &Option<Key<A>>) -> Result<Option<Key<A>>, OutOfMemory>
    ensures { IfOk result (λ copy. copy ≡ key.now) }
{
    match key {
        None => Ok(None),
        Some(key) => Ok(Some(key.copy()?)),
    }
}
