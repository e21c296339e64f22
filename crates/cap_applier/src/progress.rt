//! How far an application has come.
ghost use Rattle.std.specs.Prelude.{◌≡◌, IfOk, IsTrue, OnOk, is_some};
ghost use Rattle.std.specs.Option.{option_copied};
ghost use Rattle.cap_row.specs.Schema.{has_key};
ghost use Rattle.cap_value.specs.Memory.{LeavesUnlessMemory};
ghost use Rattle.cap_database.specs.Keyed.{IsOwnRow};
ghost use Rattle.cap_database.specs.Read.{row_at};
ghost use Rattle.cap_database.specs.Tables.{table_of};
ghost use Rattle.cap_apply.specs.Apply.{change_applied};
ghost use Rattle.cap_apply.specs.Policy.{always};
ghost use Rattle.cap_apply.specs.Target.{target};
ghost use Rattle.cap_applier.specs.Applier.{begun_progress, merged_progress};
ghost use Rattle.cap_applier.specs.Step.{accepted, answered_in, behind, left_by, met_by, met_in};
ghost use Rattle.cap_applier.specs.Step.{one_further, passed_over, skipped_over};

use crate::RowConflict;
use cap_apply::{Answer, Applied, BlobChange, Decision, Policy};
use cap_changes::{EntryRef, TableGroup};
use cap_database::Database;
use cap_filter::TableFilter;
use cap_row::{Key, Row};
use cap_value::{AllocHandle, Fault, Name, OutOfMemory, Refusal};
use std::marker::Model;

// What is applied so far, and the change that comes next.
pub(crate) struct Progress<A: AllocHandle> {
    alloc: A,
    applied: Applied<A>,
    passed: Vec<u64, A>,
    group: usize,
    change: usize,
    number: u64,
}

impl<A: AllocHandle> Model for Progress<A> {
    ghost use Rattle.cap_applier.specs.Progress.{ProgressState};

    ghost Value = { ProgressState A };

    ghost view = { λ p. record {
      applied = p.applied;
      passed = p.passed.items;
      group = p.group;
      change = p.change;
      number = p.number;
    } };
}

// A derived `Drop` would be opened in each caller.
impl<A: AllocHandle> Drop for Progress<A> {
    fn drop(self) {
        let Progress {
            alloc: _,
            applied: _,
            passed: _,
            group: _,
            change: _,
            number: _,
        } = self;
    }
}

impl<A: AllocHandle> Progress<A> {
    // Nothing is applied yet.
    pub(crate) fn new(alloc: A, database: Database<A>) -> Self
        ensures { result ≡ begun_progress database }
    {
        Progress {
            alloc,
            applied: Applied::new(alloc, database),
            passed: Vec::new(alloc),
            group: 0,
            change: 0,
            number: 0,
        }
    }

    pub(crate) fn alloc(&self) -> A {
        self.alloc
    }

    pub(crate) fn applied(&self) -> &Applied<A>
        ensures { result.now ≡ self.now.applied }
    {
        &self.applied
    }

    pub(crate) fn into_applied(self) -> Applied<A>
        ensures { result ≡ self.applied }
    {
        let Progress {
            alloc: _,
            applied,
            passed: _,
            group: _,
            change: _,
            number: _,
        } = self;
        applied
    }

    pub(crate) fn passed(&self) -> &[u64]
        ensures { result.now ≡ self.now.passed }
    {
        self.passed.as_slice()
    }

    pub(crate) fn group(&self) -> usize
        ensures { result ≡ self.now.group }
    {
        self.group
    }

    pub(crate) fn change(&self) -> usize
        ensures { result ≡ self.now.change }
    {
        self.change
    }

    pub(crate) fn number(&self) -> u64
        ensures { result ≡ self.now.number }
    {
        self.number
    }

    // The conflict that the change that comes next meets, if any.
    pub(crate) fn met<C: BlobChange<A>>(
        &self,
        filter: Option<&TableFilter<A>>,
        groups: &[TableGroup<C, A>],
    ) -> Result<Option<RowConflict<A>>, OutOfMemory>
        ensures { IfOk result (λ met. met
            ≡ met_in C.requested (option_copied filter.entry) groups.now self.now) }
    {
        let Some(group) = groups.get(self.group) else {
            return Ok(None);
        };
        if !is_accepted(filter, group.table()) {
            return Ok(None);
        }
        if !self.applied.has_target(group.table(), group.schema()) {
            return Ok(None);
        }
        match group.changes().get(self.change) {
            Some(change) => self.met_by(group, &change),
            None => Ok(None),
        }
    }

    fn met_by<C: BlobChange<A>>(
        &self,
        group: &TableGroup<C, A>,
        change: &EntryRef<'_, C>,
    ) -> Result<Option<RowConflict<A>>, OutOfMemory>
        requires { IsTrue (C.fits_in group.now.schema change.now) }
        ensures { IfOk result (λ met. met ≡ met_by self.now.applied.database group.now.table
            group.now.schema (C.requested group.now.schema change.now)) }
    {
        let (table, columns) = (group.table(), group.schema());
        let request = C::request(change, columns);
        let key = request.key(self.alloc, columns)?;
        let row = copy_of(row_under(self.applied.database(), table, &key))?;
        match request.conflict(columns, row.as_ref()) {
            Some(kind) => Ok(Some(RowConflict {
                kind,
                table: table.copy()?,
                key,
                row,
            })),
            None => Ok(None),
        }
    }

    // Makes the change that comes next, where its conflict, if any, is answered so; or leaves a group behind.
    pub(crate) fn answer<C: BlobChange<A>>(
        &mut self,
        answer: Answer,
        filter: Option<&TableFilter<A>>,
        groups: &[TableGroup<C, A>],
    ) -> Result<(), Fault<Refusal>>
        ensures { LeavesUnlessMemory result
            (answered_in C.requested answer (option_copied filter.entry) groups.now self.old) self.new }
    {
        let Some(group) = groups.get(self.group) else {
            return Ok(());
        };
        let count = group.changes().len();
        if !is_accepted(filter, group.table()) {
            return Ok(self.pass(count)?);
        }
        if !self.applied.has_target(group.table(), group.schema()) {
            return Ok(self.skip(count)?);
        }
        match group.changes().get(self.change) {
            Some(change) => self.make(answer, group, &change),
            None => Ok(self.leave_behind(count)?),
        }
    }

    fn make<C: BlobChange<A>>(
        &mut self,
        answer: Answer,
        group: &TableGroup<C, A>,
        change: &EntryRef<'_, C>,
    ) -> Result<(), Fault<Refusal>>
        requires fits { IsTrue (C.fits_in group.now.schema change.now) }
        requires target { IsTrue (is_some
            (target self.old.applied.database group.now.table group.now.schema)) }
        ensures { LeavesUnlessMemory result (left_by self.old
            (change_applied (always answer) self.old.number group.now.table group.now.schema
            (C.requested group.now.schema change.now) self.old.applied)) self.new }
    {
        let decision = Decision {
            number: self.number,
            policy: Policy::always(answer),
        };
        let (table, columns) = (group.table(), group.schema());
        match self.applied.apply_change(change, decision, table, columns) {
            Ok(()) => Ok(self.go_one_further()?),
            Err(fault) => Err(fault),
        }
    }

    // Puts a row under the key of the conflict, in place of the change.
    pub(crate) fn merge(&mut self, conflict: RowConflict<A>, row: Row<A>) -> Result<(), OutOfMemory>
        requires there { IsTrue (is_some (table_of self.old.applied.database conflict.table)) }
        requires own { IsOwnRow self.old.applied.database conflict.table conflict.key row }
        ensures { OnOk result (self.new ≡ merged_progress conflict row self.old) }
    {
        let (kind, table, key) = conflict.into_place();
        self.applied.merge(self.number, kind, &table, key, row)?;
        self.go_one_further()
    }

    // Leaves a group of so many changes behind, whose table the filter does not accept.
    fn pass(&mut self, count: usize) -> Result<(), OutOfMemory>
        ensures { OnOk result (self.new ≡ passed_over count self.old) }
    {
        self.passed.push(self.group as u64)?;
        self.leave_behind(count)
    }

    // Leaves a group of so many changes behind, for which the database has no table.
    fn skip(&mut self, count: usize) -> Result<(), OutOfMemory>
        ensures { OnOk result (self.new ≡ skipped_over count self.old) }
    {
        self.applied.skip(self.group as u64)?;
        self.leave_behind(count)
    }

    // Leaves a group of so many changes behind. No memory holds a blob of which the numbers are spent.
    fn leave_behind(&mut self, count: usize) -> Result<(), OutOfMemory>
        ensures { OnOk result (self.new ≡ behind count self.old) }
    {
        let left = count.saturating_sub(self.change);
        let Some(group) = self.group.checked_add(1) else {
            return Err(OutOfMemory);
        };
        let Some(number) = self.number.checked_add(left as u64) else {
            return Err(OutOfMemory);
        };
        self.group = group;
        self.change = 0;
        self.number = number;
        Ok(())
    }

    fn go_one_further(&mut self) -> Result<(), OutOfMemory>
        ensures { OnOk result (self.new ≡ one_further self.old) }
    {
        let Some(change) = self.change.checked_add(1) else {
            return Err(OutOfMemory);
        };
        let Some(number) = self.number.checked_add(1) else {
            return Err(OutOfMemory);
        };
        self.change = change;
        self.number = number;
        Ok(())
    }
}

// Whether the filter, if any, accepts a table.
pub(crate) fn is_accepted<A: AllocHandle>(filter: Option<&TableFilter<A>>, table: &Name<A>) -> bool
    ensures { result ≡ accepted (option_copied filter.entry) table.now }
{
    match filter {
        Some(filter) => filter.accepts(table),
        None => true,
    }
}

// The row under a key.
pub(crate) fn row_under<'a, A: AllocHandle>(
    database: &'a Database<A>,
    table: &Name<A>,
    key: &Key<A>,
) -> Option<&'a Row<A>>
    ensures { option_copied result ≡ row_at database.now table.now key.now }
{
    match database.table(table) {
        Some(table) => table.keyed().get(key),
        None => None,
    }
}

fn copy_of<A: AllocHandle>(row: Option<&Row<A>>) -> Result<Option<Row<A>>, OutOfMemory>
    ensures { IfOk result (λ copy. copy ≡ option_copied row.entry) }
{
    match row {
        Some(row) => Ok(Some(row.copy()?)),
        None => Ok(None),
    }
}
