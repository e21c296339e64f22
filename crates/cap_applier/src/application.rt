//! A blob, and how far its application has come.
ghost use Rattle.std.specs.Prelude.{◌≡◌, ◌≤◌, None, Ok, IfNone, IfOk, IsTrue, OnOk, is_some, nat_le};
ghost use Rattle.cap_value.specs.Memory.{LeavesUnlessMemory};
ghost use Rattle.cap_apply.specs.declared.policy.Answer.TheVariants.{Omit};
ghost use Rattle.cap_database.specs.Keyed.{IsOwnRow};
ghost use Rattle.cap_database.specs.Tables.{table_of};
ghost use Rattle.cap_applier.specs.Applier.{IsAtEnd, answered, begun, group_count, merged_at, met};
ghost use Rattle.cap_applier.specs.Looked.{looked_at};
ghost use Rattle.cap_applier.specs.Reach.{IsReached};
ghost use Rattle.cap_applier.specs.Remaining.{AcceptsAll, remaining};

use crate::RowConflict;
use crate::looked::{RowOf, looked_in};
use crate::progress::Progress;
use cap_apply::{Answer, Policy};
use cap_codec::Contents;
use cap_database::Database;
use cap_filter::TableFilter;
use cap_row::Row;
use cap_value::{AllocHandle, Fault, OutOfMemory, Refusal};
use std::marker::Model;

// A blob, the tables that it may change, and how far its application has come.
pub(crate) struct Application<A: AllocHandle> {
    blob: Contents<A>,
    filter: Option<TableFilter<A>>,
    progress: Progress<A>,
}

impl<A: AllocHandle> Model for Application<A> {
    ghost use Rattle.cap_applier.specs.Applier.{ApplierState};

    ghost Value = { ApplierState A };

    ghost use Rattle.cap_filter.specs.Rule.{coded_rule};
    ghost use Rattle.std.specs.Coded.{codes};

    ghost coded = { Prim.hlevel (codes, coded_rule) };

    ghost view = { λ a. record { blob = a.blob; filter = a.filter; progress = a.progress } };
}

// A derived `Drop` would be opened in each caller.
impl<A: AllocHandle> Drop for Application<A> {
    fn drop(self) {
        let Application {
            blob: _,
            filter: _,
            progress: _,
        } = self;
    }
}

impl<A: AllocHandle> Application<A> {
    // Nothing is applied yet.
    pub(crate) fn new(
        alloc: A,
        database: Database<A>,
        blob: Contents<A>,
        filter: Option<TableFilter<A>>,
    ) -> Self
        ensures { result ≡ begun database blob filter }
    {
        Application {
            blob,
            filter,
            progress: Progress::new(alloc, database),
        }
    }

    pub(crate) fn blob(&self) -> &Contents<A>
        ensures { result.now ≡ self.now.blob }
    {
        &self.blob
    }

    pub(crate) fn progress(&self) -> &Progress<A>
        ensures { result.now ≡ self.now.progress }
    {
        &self.progress
    }

    pub(crate) fn into_progress(self) -> Progress<A>
        ensures { result ≡ self.progress }
    {
        let Application {
            blob: _,
            filter: _,
            progress,
        } = self;
        progress
    }

    // The rows that it looks at.
    pub(crate) fn looked_at(&self) -> Result<Vec<RowOf<A>, A>, OutOfMemory>
        ensures { IfOk result (λ rows. rows.items ≡ looked_at self.now.filter self.now.blob) }
    {
        let alloc = self.progress.alloc();
        let filter = self.filter.as_ref();
        match &self.blob {
            Contents::Changes(list) => looked_in(alloc, filter, list.groups()),
            Contents::Patches(list) => looked_in(alloc, filter, list.groups()),
        }
    }

    // Makes the change that comes next, where its conflict, if any, is answered so; or leaves a group behind.
    pub(crate) fn answer(&mut self, answer: Answer) -> Result<(), Fault<Refusal>>
        ensures { LeavesUnlessMemory result (answered answer self.old) self.new }
    {
        let filter = self.filter.as_ref();
        match &self.blob {
            Contents::Changes(list) => self.progress.answer(answer, filter, list.groups()),
            Contents::Patches(list) => self.progress.answer(answer, filter, list.groups()),
        }
    }

    // Puts a row under the key of the conflict, in place of the change.
    pub(crate) fn merge(&mut self, conflict: RowConflict<A>, row: Row<A>) -> Result<(), OutOfMemory>
        requires there { IsTrue (is_some
            (table_of self.old.progress.applied.database conflict.table)) }
        requires own { IsOwnRow self.old.progress.applied.database conflict.table conflict.key row }
        ensures { OnOk result (self.new ≡ merged_at (Some conflict) row self.old) }
    {
        self.progress.merge(conflict, row)
    }

    // Goes on to the change that meets a conflict next, or to the end.
    pub(crate) fn go_on(&mut self) -> Result<Option<RowConflict<A>>, OutOfMemory>
        ensures reached { OnOk result (IsReached self.old self.new) }
        ensures met { IfOk result (λ found. found ≡ met self.new) }
        ensures end { IfOk result (λ found. IfNone found (IsAtEnd self.new)) }
    {
        for _ in 0..u64::MAX {
            match self.met()? {
                Some(conflict) => return Ok(Some(conflict)),
                None => {
                    if self.is_at_end() {
                        return Ok(None);
                    }
                    self.make_next()?;
                }
            }
        }
        Err(OutOfMemory)
    }

    // Answers each conflict that is left by the policy.
    pub(crate) fn answer_all(&mut self, policy: Policy) -> Result<(), Fault<Refusal>>
        ensures { AcceptsAll self.old.filter
            → LeavesUnlessMemory result (remaining policy self.old) self.new.progress.applied }
    {
        for _ in 0..u64::MAX {
            match self.go_on()? {
                None => return Ok(()),
                Some(conflict) => match self.answer(policy.answer(conflict.kind)) {
                    Ok(()) => {}
                    Err(fault) => return Err(fault),
                },
            }
        }
        Err(Fault::OutOfMemory)
    }

    // The conflict that the change that comes next meets, if any.
    fn met(&self) -> Result<Option<RowConflict<A>>, OutOfMemory>
        ensures { IfOk result (λ found. found ≡ met self.now) }
    {
        let filter = self.filter.as_ref();
        match &self.blob {
            Contents::Changes(list) => self.progress.met(filter, list.groups()),
            Contents::Patches(list) => self.progress.met(filter, list.groups()),
        }
    }

    // Whether no change is left.
    fn is_at_end(&self) -> bool
        ensures { result ≡ nat_le (group_count self.now.blob) self.now.progress.group }
    {
        let groups = match &self.blob {
            Contents::Changes(list) => list.groups().len(),
            Contents::Patches(list) => list.groups().len(),
        };
        groups <= self.progress.group()
    }

    // Makes the change that comes next. No answer is asked for.
    fn make_next(&mut self) -> Result<(), OutOfMemory>
        ensures { OnOk result (answered Omit self.old ≡ Ok self.new) }
    {
        match self.answer(Answer::Omit) {
            Ok(()) => Ok(()),
            Err(_) => Err(OutOfMemory),
        }
    }
}
