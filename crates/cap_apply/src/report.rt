//! The report of an applied blob.
ghost use Rattle.std.specs.Prelude.{◌≡◌, ◌+◌, [], IfOk, OnOk, if◌then◌else◌};
ghost use Rattle.cap_value.specs.Memory.{AnswersUnlessMemory};
ghost use Rattle.cap_apply.specs.Policy.{is_made};
ghost use Rattle.cap_apply.specs.Report.{noted_in, with_conflict, with_omitted, with_skipped};

use crate::{Conflict, ConflictKind, Decision};
use cap_value::{AllocHandle, Fault, OutOfMemory, Refusal};
use std::marker::Model;

/// The report of an applied blob. Changes and groups are numbered from 0 over the whole blob, the changes of
/// skipped groups among them.
pub struct Report<A: AllocHandle> {
    applied: u64,
    conflicts: Vec<Conflict, A>,
    omitted: Vec<u64, A>,
    skipped: Vec<u64, A>,
}

impl<A: AllocHandle> Model for Report<A> {
    ghost use Rattle.cap_apply.specs.Report.{ReportState};

    ghost Value = { ReportState };

    ghost view = { λ r. record {
      applied = r.applied;
      conflicts = r.conflicts.items;
      omitted = r.omitted.items;
      skipped = r.skipped.items;
    } };
}

// A derived `Drop` would be opened in each caller.
impl<A: AllocHandle> Drop for Report<A> {
    fn drop(self) {
        let Report {
            applied: _,
            conflicts: _,
            omitted: _,
            skipped: _,
        } = self;
    }
}

impl<A: AllocHandle> Report<A> {
    // The report of an empty blob. Takes no memory.
    pub(crate) fn new(alloc: A) -> Self
        ensures { result ≡ record { applied = 0; conflicts = []; omitted = []; skipped = [] } }
    {
        Report {
            applied: 0,
            conflicts: Vec::new(alloc),
            omitted: Vec::new(alloc),
            skipped: Vec::new(alloc),
        }
    }

    /// The number of applied changes, those applied in spite of a conflict among them.
    pub fn applied(&self) -> u64
        ensures { result ≡ self.now.applied }
    {
        self.applied
    }

    /// The conflicts, in order.
    pub fn conflicts(&self) -> &[Conflict]
        ensures { result.now ≡ self.now.conflicts }
    {
        self.conflicts.as_slice()
    }

    /// The numbers of the changes that were omitted because of a conflict.
    pub fn omitted(&self) -> &[u64]
        ensures { result.now ≡ self.now.omitted }
    {
        self.omitted.as_slice()
    }

    /// The numbers of the skipped groups, for which the database has no fitting table.
    pub fn skipped(&self) -> &[u64]
        ensures { result.now ≡ self.now.skipped }
    {
        self.skipped.as_slice()
    }

    // Counts an applied change. Memory runs out before the count does.
    pub(crate) fn count(&mut self) -> Result<(), OutOfMemory>
        ensures { OnOk result (self.new ≡ record self.old { applied = self.old.applied + 1 }) }
    {
        self.applied = self.applied.checked_add(1).ok_or(OutOfMemory)?;
        Ok(())
    }

    // Reports the conflict of a change, if any, and answers whether the change is applied.
    pub(crate) fn judge(
        &mut self,
        decision: Decision,
        conflict: Option<ConflictKind>,
    ) -> Result<bool, Fault<Refusal>>
        ensures made { AnswersUnlessMemory result (is_made decision.policy decision.number conflict) }
        ensures noted { IfOk result (λ made. self.new ≡ (if made
            then noted_in decision.policy decision.number conflict self.old
            else with_omitted decision.number
            (noted_in decision.policy decision.number conflict self.old))) }
    {
        let made = decision.is_made(conflict).map_err(Fault::Refused)?;
        if let Some(kind) = conflict {
            self.note(Conflict {
                change: decision.number,
                kind,
                answer: decision.policy.answer(kind),
            })?;
        }
        if !made {
            self.omit(decision.number)?;
        }
        Ok(made)
    }

    pub(crate) fn note(&mut self, conflict: Conflict) -> Result<(), OutOfMemory>
        ensures { OnOk result (self.new ≡ with_conflict conflict self.old) }
    {
        self.conflicts.push(conflict)?;
        Ok(())
    }

    pub(crate) fn omit(&mut self, change: u64) -> Result<(), OutOfMemory>
        ensures { OnOk result (self.new ≡ with_omitted change self.old) }
    {
        self.omitted.push(change)?;
        Ok(())
    }

    pub(crate) fn skip(&mut self, group: u64) -> Result<(), OutOfMemory>
        ensures { OnOk result (self.new ≡ with_skipped group self.old) }
    {
        self.skipped.push(group)?;
        Ok(())
    }
}
