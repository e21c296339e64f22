//! The result of applying a blob, and its steps.
ghost use Rattle.std.specs.Prelude.{◌≡◌, [], ◌∷◌, Some, IfSome, IsTrue, OnOk, is_some, length};
ghost use Rattle.std.specs.Option.{option_copied, unwrap_or};
ghost use Rattle.cap_value.specs.Memory.{LeavesUnlessMemory};
ghost use Rattle.cap_row.specs.Schema.{has_key};
ghost use Rattle.cap_database.specs.Keyed.{IsOwnRow};
ghost use Rattle.cap_database.specs.Read.{row_at};
ghost use Rattle.cap_database.specs.Tables.{schema_of, table_of};
ghost use Rattle.cap_apply.specs.Apply.{change_applied, nothing_applied, skipped};
ghost use Rattle.cap_apply.specs.Merged.{merged, row_replaced, with_changes};
ghost use Rattle.cap_apply.specs.Target.{target};

use crate::target::columns_fit;
use crate::{Answer, BlobChange, Conflict, ConflictKind, Decision, Report};
use cap_changes::EntryRef;
use cap_database::{Cause, Change, Database};
use cap_row::{Key, Row, Schema};
use cap_value::{AllocHandle, Fault, Name, OutOfMemory, Refusal};
use std::marker::Model;

/// The result of applying a blob: the database, the changes to its rows, in order, and the report.
pub struct Applied<A: AllocHandle> {
    database: Database<A>,
    changes: Vec<Change<A>, A>,
    report: Report<A>,
}

impl<A: AllocHandle> Model for Applied<A> {
    ghost use Rattle.cap_apply.specs.Applied.{AppliedState};

    ghost Value = { AppliedState A };

    ghost view = { λ a. record { database = a.database; changes = a.changes.items; report = a.report } };
}

// A derived `Drop` would be opened in each caller.
impl<A: AllocHandle> Drop for Applied<A> {
    fn drop(self) {
        let Applied {
            database: _,
            changes: _,
            report: _,
        } = self;
    }
}

impl<A: AllocHandle> Applied<A> {
    /// Of this database nothing is applied yet. Takes no memory.
    pub fn new(alloc: A, database: Database<A>) -> Self
        ensures { result ≡ nothing_applied database }
    {
        Applied {
            database,
            changes: Vec::new(alloc),
            report: Report::new(alloc),
        }
    }

    /// The database after the blob.
    pub fn database(&self) -> &Database<A>
        ensures { result.now ≡ self.now.database }
    {
        &self.database
    }

    /// The changes to the database's rows, in order: one for an insert or a delete, and two for an update or
    /// an insert that replaced a row.
    pub fn changes(&self) -> &[Change<A>]
        ensures { result.now ≡ self.now.changes }
    {
        self.changes.as_slice()
    }

    /// What became of the blob's changes and groups.
    pub fn report(&self) -> &Report<A>
        ensures { result.now ≡ self.now.report }
    {
        &self.report
    }

    /// The database, the changes and the report.
    pub fn into_parts(self) -> (Database<A>, Vec<Change<A>, A>, Report<A>)
        ensures database { result.0 ≡ self.database }
        ensures changes { result.1.items ≡ self.changes }
        ensures report { result.2 ≡ self.report }
    {
        let Applied {
            database,
            changes,
            report,
        } = self;
        (database, changes, report)
    }

    /// Whether the database has a table for a group with this name and these columns.
    pub fn has_target(&self, name: &Name<A>, columns: &Schema<A>) -> bool
        ensures { result ≡ is_some (target self.now.database name.now columns.now) }
    {
        match self.database.table(name) {
            Some(table) => columns_fit(columns.flags(), table.schema().flags()),
            None => false,
        }
    }

    /// Reports a skipped group.
    pub fn skip(&mut self, group: u64) -> Result<(), OutOfMemory>
        ensures { OnOk result (self.new ≡ skipped group self.old) }
    {
        self.report.skip(group)
    }

    /// Applies a change of a group of this table and these columns, after what was applied before it. The row
    /// under its key is looked at and its conflict is judged. Where the change is to be made, the row that it
    /// leaves then stands in the place of that row.
    #[tactic(auto, using(crate::proofs::MadeLemmas::change_is))]
    pub fn apply_change<C: BlobChange<A>>(
        &mut self,
        change: &EntryRef<'_, C>,
        decision: Decision,
        table: &Name<A>,
        columns: &Schema<A>,
    ) -> Result<(), Fault<Refusal>>
        requires keyed { IsTrue (has_key columns.now) }
        requires fits { IsTrue (C.fits_in columns.now change.now) }
        requires target { IsTrue (is_some (target self.old.database table.now columns.now)) }
        ensures { LeavesUnlessMemory result
            (change_applied decision.policy decision.number table.now columns.now
            (C.requested columns.now change.now) self.old) self.new }
    {
        self.database.sound_rows_law();
        let alloc = *self.changes.allocator();
        let request = C::request(change, columns);
        let key = request.key(alloc, columns)?;
        let (before, width) = row_and_width(&self.database, table, &key);
        let conflict = request.conflict(columns, before);
        if !self.report.judge(decision, conflict)? {
            return Ok(());
        }
        let after = request.row_after(alloc, columns, width, before)?;
        self.set_row(table, key, after)?;
        self.report.count()?;
        Ok(())
    }

    /// Puts a row under its key in place of a change with this number, which met a conflict. The change is
    /// omitted.
    pub fn merge(
        &mut self,
        number: u64,
        kind: ConflictKind,
        table: &Name<A>,
        key: Key<A>,
        row: Row<A>,
    ) -> Result<(), OutOfMemory>
        requires there { IsTrue (is_some (table_of self.old.database table.now)) }
        requires own { IsOwnRow self.old.database table.now key row }
        ensures { OnOk result (self.new ≡ merged number kind table.now key row self.old) }
    {
        self.set_row(table, key, Some(row))?;
        self.report.note(Conflict {
            change: number,
            kind,
            answer: Answer::Omit,
        })?;
        self.report.omit(number)
    }

    // Puts this row under its key, or takes out the row that is there, and adds the changes of both rows.
    fn set_row(
        &mut self,
        table: &Name<A>,
        key: Key<A>,
        after: Option<Row<A>>,
    ) -> Result<(), OutOfMemory>
        requires there { IsTrue (is_some (table_of self.old.database table.now)) }
        requires own { IfSome after (IsOwnRow self.old.database table.now key) }
        ensures { OnOk result (self.new ≡ row_replaced table.now key after self.old) }
    {
        match after {
            Some(row) => {
                if let Some(before) = self.database.put_row(table, key.copy()?, row)? {
                    self.add_change(table, key.copy()?, Some(before))?;
                }
                self.add_change(table, key, None)
            }
            None => match self.database.take_row(table, &key)? {
                Some(before) => self.add_change(table, key, Some(before)),
                None => Ok(()),
            },
        }
    }

    // Adds the change of a row that comes, or of one that goes, which was there before.
    fn add_change(
        &mut self,
        table: &Name<A>,
        key: Key<A>,
        before: Option<Row<A>>,
    ) -> Result<(), OutOfMemory>
        ensures { OnOk result (self.new ≡ with_changes table.now ((Some key, before) ∷ []) self.old) }
    {
        self.changes.push(Change {
            table: table.copy()?,
            key: Some(key),
            cause: Cause::Direct,
            before,
        })?;
        Ok(())
    }
}

// The row under a key in the table of the name, if any, and how many columns the table has.
fn row_and_width<'a, A: AllocHandle>(
    database: &'a Database<A>,
    table: &Name<A>,
    key: &Key<A>,
) -> (Option<&'a Row<A>>, usize)
    ensures row { option_copied result.0 ≡ row_at database.now table.now key.now }
    ensures width { result.1 ≡ length (unwrap_or (schema_of database.now table.now) []) }
{
    match database.table(table) {
        Some(found) => (found.keyed().get(key), found.schema().width()),
        None => (None, 0),
    }
}
