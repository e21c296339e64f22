//! An applier that stops at each conflict.
ghost use Rattle.std.specs.Prelude.{◌≡◌, None, IfErr, IfNone, IfOk};
ghost use Rattle.std.specs.Option.{option_copied};
ghost use Rattle.cap_value.specs.Memory.{AnswersUnlessMemory};
ghost use Rattle.cap_applier.specs.Applier.{IsAtEnd, answered, begun, merged_at, met};
ghost use Rattle.cap_applier.specs.Merge.{refused_merge};
ghost use Rattle.cap_applier.specs.Reach.{GoesOn, IsReached};
ghost use Rattle.cap_applier.specs.Remaining.{AcceptsAll, remaining};
ghost use Rattle.cap_applier.specs.Transaction.{transaction_of};

use crate::application::Application;
use crate::merge::refused_for;
use crate::transaction::leading_to;
use crate::{MergeRefusal, RowConflict};
use cap_apply::{Answer, Applied, Policy};
use cap_codec::Contents;
use cap_database::{Database, Snapshot};
use cap_filter::TableFilter;
use cap_row::Row;
use cap_txn::Txn;
use cap_value::{AllocHandle, Fault, OutOfMemory, Refusal};
use std::marker::Model;

/// An application of a changeset or a patchset that stops at each conflict (The Session Extension,
/// "sqlite3changeset_apply"). It stands at a conflict or at the end. The changes before it are made, on a
/// snapshot of the database that it began with.
///
/// A call that goes on takes the applier. Where it is refused or runs out of memory, nothing is left of it.
pub struct Applier<A: AllocHandle> {
    application: Application<A>,
    found: Option<RowConflict<A>>,
}

impl<A: AllocHandle> Model for Applier<A> {
    ghost use Rattle.std.specs.Prelude.{◌≡◌, None};
    ghost use Rattle.cap_applier.specs.Applier.{ApplierState, IsAtEnd, met};

    ghost Value = { ApplierState A };

    ghost use Rattle.cap_filter.specs.Rule.{coded_rule};
    ghost use Rattle.std.specs.Coded.{codes};

    ghost coded = { Prim.hlevel (codes, coded_rule) };

    ghost view = { λ a. a.application };

    ghost invariant = { λ a.
        (a.found ≡ met a.application) × (a.found ≡ None → IsAtEnd a.application) };
}

// A derived `Drop` would be opened in each caller.
impl<A: AllocHandle> Drop for Applier<A> {
    fn drop(self) {
        let Applier {
            application: _,
            found: _,
        } = self;
    }
}

impl<A: AllocHandle> Applier<A> {
    /// Applies the changes before the first conflict. The database is unchanged.
    ///
    /// Groups whose table the filter does not accept are passed over. A group is skipped where the database
    /// has no table for it, as in `cap_apply::apply`.
    pub fn new(
        alloc: A,
        database: &Database<A>,
        blob: Contents<A>,
        filter: Option<TableFilter<A>>,
    ) -> Result<Self, OutOfMemory>
        ensures { IfOk result (λ applier. IsReached (begun database.now blob filter) applier) }
    {
        Applier::go_on(Application::new(alloc, database.snapshot()?, blob, filter))
    }

    /// The conflict at which it stands, or none at the end.
    pub fn conflict(&self) -> Option<&RowConflict<A>>
        ensures conflict { option_copied result ≡ met self.now }
        ensures end { IfNone result (IsAtEnd self.now) }
    {
        self.found.as_ref()
    }

    /// The blob. The change at which it stands is in the group `group`, and there at the place `change`.
    pub fn blob(&self) -> &Contents<A>
        ensures { result.now ≡ self.now.blob }
    {
        self.application.blob()
    }

    /// The number of the group at which it stands, from 0.
    pub fn group(&self) -> usize
        ensures { result ≡ self.now.progress.group }
    {
        self.application.progress().group()
    }

    /// The place of the change in its group, from 0.
    pub fn change(&self) -> usize
        ensures { result ≡ self.now.progress.change }
    {
        self.application.progress().change()
    }

    /// The number of the change, counted from 0 over the whole blob.
    pub fn number(&self) -> u64
        ensures { result ≡ self.now.progress.number }
    {
        self.application.progress().number()
    }

    /// The numbers of the groups that were passed over, whose table the filter does not accept.
    pub fn passed(&self) -> &[u64]
        ensures { result.now ≡ self.now.progress.passed }
    {
        self.application.progress().passed()
    }

    /// What is applied so far.
    pub fn applied(&self) -> &Applied<A>
        ensures { result.now ≡ self.now.progress.applied }
    {
        self.application.progress().applied()
    }

    /// Answers the conflict, and goes on to the next one or to the end. At the end nothing changes.
    ///
    /// Refused with `Aborted` where the answer is `Abort`, and with `Misuse` where `Replace` answers
    /// `NotFound`, each with the number of the change.
    pub fn answer(self, answer: Answer) -> Result<Self, Fault<Refusal>>
        ensures { GoesOn (answered answer self) result }
    {
        let Applier {
            mut application,
            found: _,
        } = self;
        match application.answer(answer) {
            Ok(()) => Ok(Applier::go_on(application)?),
            Err(fault) => Err(fault),
        }
    }

    /// Why a row may not stand in place of the change, if it may not: it has the table's columns and the key
    /// that the change names.
    pub fn merge_refusal(&self, row: &Row<A>) -> Result<Option<MergeRefusal>, OutOfMemory>
        ensures { IfOk result (λ refusal. refusal ≡ refused_merge self.now row.now) }
    {
        let Some(conflict) = &self.found else {
            return Ok(Some(MergeRefusal::NoConflict));
        };
        let progress = self.application.progress();
        refused_for(
            progress.alloc(),
            progress.applied().database(),
            conflict,
            row,
        )
    }

    /// Answers the conflict by a row of the caller's own, which stands under the key from then on, and goes on
    /// to the next conflict or to the end. The change itself counts as omitted.
    pub fn merge(self, row: Row<A>) -> Result<Self, OutOfMemory>
        requires { refused_merge self row ≡ None }
        ensures { IfOk result (λ applier. IsReached (merged_at (met self) row self) applier) }
    {
        let Applier {
            mut application,
            found,
        } = self;
        let Some(conflict) = found else {
            unreachable!()
        };
        application.merge(conflict, row)?;
        Applier::go_on(application)
    }

    /// Answers this conflict and all later ones by a policy. Where the filter accepts every table, this leaves
    /// what `cap_apply::apply` leaves of the changes that are left.
    pub fn answer_all(self, policy: Policy) -> Result<Applied<A>, Fault<Refusal>>
        ensures { AcceptsAll self.filter → AnswersUnlessMemory result (remaining policy self) }
    {
        let Applier {
            mut application,
            found: _,
        } = self;
        match application.answer_all(policy) {
            Ok(()) => Ok(application.into_progress().into_applied()),
            Err(fault) => Err(fault),
        }
    }

    /// A transaction on the snapshot with which the application began, which makes what is applied so far: it
    /// looks at each row that a change names, of the tables that the filter accepts, and has one operation for
    /// each that is not as it was, however many. On the snapshot with which it began it is never refused.
    pub fn transaction(&self, snapshot: &Snapshot<A>) -> Result<Txn<A>, Fault<Refusal>>
        ensures { AnswersUnlessMemory result (transaction_of snapshot.now self.now) }
    {
        let rows = self.application.looked_at()?;
        let progress = self.application.progress();
        let left = progress.applied().database();
        leading_to(progress.alloc(), snapshot, left, rows.as_slice())
    }

    /// What the application leaves, once it is at the end. Where a conflict is to be answered, the applier is
    /// handed back.
    pub fn finish(self) -> Result<Applied<A>, Self>
        ensures applied { IfOk result (λ applied. applied ≡ self.progress.applied) }
        ensures end { IfOk result (λ applied. (met self ≡ None) × IsAtEnd self) }
        ensures handed_back { IfErr result (λ applier. (applier ≡ self) × (met self ≡ None → ⊥)) }
    {
        if self.found.is_some() {
            return Err(self);
        }
        let Applier {
            application,
            found: _,
        } = self;
        Ok(application.into_progress().into_applied())
    }

    // Goes on to the change that meets a conflict next, or to the end.
    fn go_on(application: Application<A>) -> Result<Self, OutOfMemory>
        ensures { IfOk result (λ applier. IsReached application applier) }
    {
        let mut application = application;
        let found = application.go_on()?;
        Ok(Applier { application, found })
    }
}
