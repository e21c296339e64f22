//! A row put under its key, or taken out from under it, in place and by one search.
ghost use Rattle.std.specs.Prelude.{◌≡◌, length, IfOk, OnOk, OnErr, Some};
ghost use Rattle.cap_row.specs.Key.{key_of, fields_cmp};
ghost use Rattle.cap_tree.specs.Tree.{get};
ghost use Rattle.cap_table.specs.Operation.{with_key, without};

use crate::RowRef;
use crate::table::Table;
use cap_row::{Key, Row};
use cap_value::{AllocHandle, OutOfMemory};

impl<A: AllocHandle> Table<A> {
    /// Puts a row under its own key, and answers the row that was there, if any. It searches once.
    ///
    /// On an error the table is as before.
    pub fn put_keyed(&mut self, key: Key<A>, row: Row<A>) -> Result<Option<Row<A>>, OutOfMemory>
        requires width { length row ≡ length self.old.schema }
        requires key { key_of self.old.schema row ≡ Some key }
        ensures table { OnOk result (self.new ≡ with_key self.old key row) }
        ensures kept { OnErr result (self.new ≡ self.old) }
        ensures before { IfOk result (λ before. before ≡ get fields_cmp self.old.keyed key) }
    {
        let before = self.keyed.insert(key, row)?;
        Ok(before)
    }

    /// Takes the row of a key out, and answers it, if any. It searches once.
    ///
    /// On an error the table is as before.
    pub fn take_keyed(&mut self, key: &Key<A>) -> Result<Option<Row<A>>, OutOfMemory>
        ensures table { OnOk result (self.new ≡ without self.old (RowRef.Key key.now)) }
        ensures kept { OnErr result (self.new ≡ self.old) }
        ensures before { IfOk result (λ before. before ≡ get fields_cmp self.old.keyed key.now) }
    {
        let before = self.keyed.remove(key)?;
        Ok(before)
    }
}
