//! An application on a snapshot that stops at each conflict, which its caller answers.
ghost use Rattle.std.specs.Prelude.{◌≡◌, IfOk, is_some};
ghost use Rattle.std.specs.Option.{option_copied, option_map};
ghost use Rattle.cap_value.specs.Memory.{AnswersUnlessMemory, RefusesFirst};
ghost use Rattle.cap_codec.specs.declared.key_flags.KeyFlags.{KeyFlags as Flags};
ghost use Rattle.cap_records.specs.Record.{values_bytes};
ghost use Rattle.cap_connection.specs.Application.{AnswersWith, Begins, BeginsOf, MakesItsRows, MergesRow};
ghost use Rattle.cap_connection.specs.Application.{at_conflict_of, batch_left, buffer_left, columns_at};
ghost use Rattle.cap_connection.specs.Application.{columns_of, conflict_of, filter_in, filter_misuse, head_of};
ghost use Rattle.cap_connection.specs.Application.{is_of_patchset, kind_of, merge_fault, new_record_of};
ghost use Rattle.cap_connection.specs.Application.{number_of, old_record_of, position_of};
ghost use Rattle.cap_connection.specs.Application.{present_record_of, record_at, report_of, row_to_merge};
ghost use Rattle.cap_connection.specs.Application.{standing, table_of};

use crate::iter_fields::{ChangeHead, head_at, schema_at, table_at};
use crate::iter_position::Position;
use crate::iter_record::{Side, side_record};
use crate::replies::Applied;
use cap_applier::{Applier, MergeRefusal, RowConflict};
use cap_apply::{Answer, ConflictKind};
use cap_codec::{BlobFault, Contents, KeyFlags, read_blob, write_changes_with};
use cap_database::Snapshot;
use cap_filter::TableFilter;
use cap_rebase::buffer_of;
use cap_records::{record_of_row, row_of};
use cap_row::Row;
use cap_txn::Batch;
use cap_value::{Fault, Name, OutOfMemory, Refusal};
use std::alloc::Global;
use std::marker::Model;
use thiserror::Error;

/// Why a call of an application has no answer.
#[derive(Clone, Copy, Debug, PartialEq, Eq, Drop, Error)]
pub enum ApplicationFault {
    /// The call has no meaning for an argument, or where the application stands.
    #[error("misuse")]
    Misuse,
    /// The bytes are no blob, or no row.
    #[error("fault {0}")]
    Malformed(BlobFault),
    /// The text is no filter.
    #[error("no filter: {0}")]
    NoFilter(Refusal),
    /// The rules refuse it.
    #[error("refused: {0}")]
    Refused(Refusal),
}

/// An application of a changeset or a patchset to the tables of a snapshot, which stops at each conflict (The
/// Session Extension, "sqlite3changeset_apply"). The caller answers it, also with a row of its own. What it
/// leaves is committed as a batch, where the rows that it looked at are as they were in the snapshot.
///
/// After a refusal, or where memory runs out while it goes on, it is over, and is begun again on a snapshot.
#[derive(Drop)]
pub struct Application {
    base: Snapshot<Global>,
    applier: Option<Applier<Global>>,
}

impl Model for Application {
    ghost use Rattle.std.specs.Coded.{codes};
    ghost use Rattle.std.specs.Prelude.{IfSome};
    ghost use Rattle.cap_filter.specs.Rule.{coded_rule};
    ghost use Rattle.cap_applier.specs.Looked.{KeepsTo};
    ghost use Rattle.cap_connection.specs.Application.{ApplicationState};

    ghost Value = { ApplicationState };

    ghost coded = { Prim.hlevel (codes, coded_rule) };

    ghost view = { λ a. record { base = a.base; applier = a.applier } };

    ghost invariant = { λ a. IfSome a.applier (KeepsTo a.base.database) };
}

impl Application {
    /// Applies the changes of a blob before the first conflict, on the snapshot. Only tables that the filter
    /// of the text accepts are looked at, or with an empty text all.
    pub fn begin(
        alloc: Global,
        snapshot: &Snapshot<Global>,
        blob: &[u8],
        filter: &[u8],
    ) -> Result<Self, Fault<ApplicationFault>>
        ensures begun { Begins snapshot.now blob.now filter.now result }
        ensures first { RefusesFirst (filter_misuse filter.now) result }
    {
        let filter = filter_in(alloc, filter)?;
        match read_blob(alloc, blob) {
            Ok(contents) => Ok(Application::of_contents(alloc, snapshot, contents, filter)?),
            Err(Fault::Refused(wrong)) => Err(Fault::Refused(ApplicationFault::Malformed(wrong))),
            Err(Fault::OutOfMemory) => Err(Fault::OutOfMemory),
        }
    }

    // ---- The conflict at which it stands

    /// Whether it stands at a conflict, which is to be answered. None where it is over.
    pub fn is_at_conflict(&self) -> Option<bool>
        ensures { result ≡ at_conflict_of self.now }
    {
        match &self.applier {
            Some(applier) => Some(applier.conflict().is_some()),
            None => None,
        }
    }

    /// What the change meets.
    pub fn kind(&self) -> Option<ConflictKind>
        ensures { result ≡ kind_of self.now }
    {
        match self.conflict() {
            Some(conflict) => Some(conflict.kind),
            None => None,
        }
    }

    /// The number of the change, counted from 0 over the whole blob.
    pub fn number(&self) -> Option<u64>
        ensures { result ≡ number_of self.now }
    {
        match self.standing() {
            Some(applier) => Some(applier.number()),
            None => None,
        }
    }

    /// What the change does, and whether it is indirect.
    pub fn head(&self) -> Option<ChangeHead>
        ensures { result ≡ head_of self.now }
    {
        match self.standing() {
            Some(applier) => head_at(applier.blob(), position_of(applier)),
            None => None,
        }
    }

    /// Whether the blob is a patchset.
    pub fn is_of_patchset(&self) -> bool
        ensures { result ≡ is_of_patchset self.now }
    {
        match self.standing() {
            Some(applier) => matches!(applier.blob(), Contents::Patches(_)),
            None => false,
        }
    }

    /// How many columns the change's group has. None where it stands at no conflict.
    pub fn columns(&self) -> usize
        ensures { result ≡ columns_of self.now }
    {
        match self.standing() {
            Some(applier) => columns_at(applier),
            None => 0,
        }
    }

    /// The change's table.
    pub fn table(&self) -> Option<&Name<Global>>
        ensures { option_copied result ≡ table_of self.now }
    {
        match self.standing() {
            Some(applier) => table_at(applier.blob(), applier.group()),
            None => None,
        }
    }

    /// The record of the row before the change: a field for each column, undefined where there is no value.
    pub fn old_record(&self, alloc: Global) -> Result<Option<Vec<u8, Global>>, OutOfMemory>
        ensures { IfOk result (λ it. option_map (λ bytes. bytes.items) it ≡ old_record_of self.now) }
    {
        match self.standing() {
            Some(applier) => Ok(Some(record_of(alloc, applier, Side::Old)?)),
            None => Ok(None),
        }
    }

    /// The same of the row after the change.
    pub fn new_record(&self, alloc: Global) -> Result<Option<Vec<u8, Global>>, OutOfMemory>
        ensures { IfOk result (λ it. option_map (λ bytes. bytes.items) it ≡ new_record_of self.now) }
    {
        match self.standing() {
            Some(applier) => Ok(Some(record_of(alloc, applier, Side::New)?)),
            None => Ok(None),
        }
    }

    /// Whether there is a row under the key of the change.
    pub fn has_present(&self) -> bool
        ensures { result ≡ is_some (present_record_of self.now) }
    {
        match self.conflict() {
            Some(conflict) => conflict.row.is_some(),
            None => false,
        }
    }

    /// The record of the row that is there, after the changes of the blob before this one. None where there is
    /// no row.
    pub fn present_record(&self, alloc: Global) -> Result<Option<Vec<u8, Global>>, OutOfMemory>
        ensures { IfOk result (λ it. option_map (λ bytes. bytes.items) it ≡ present_record_of self.now) }
    {
        match self.conflict() {
            Some(conflict) => record_of_present(alloc, conflict),
            None => Ok(None),
        }
    }

    // ---- Its answers

    /// Answers the conflict, and goes on to the next one or to the end. Where it stands at none, that is misuse.
    ///
    /// Refused with `Aborted` where the answer is `Abort`, and with `Misuse` of the rules where `Replace` answers
    /// `NotFound`, each with the number of the change. Then it is over.
    pub fn answer(&mut self, answer: Answer) -> Result<(), Fault<ApplicationFault>>
        ensures { AnswersWith answer self.old self.new result }
    {
        cap_applier::laws::applications_keep_to_the_rows_that_they_look_at::<Global>();
        if self.conflict().is_none() {
            return Err(Fault::Refused(ApplicationFault::Misuse));
        }
        let Some(applier) = self.applier.take() else {
            return Err(Fault::Refused(ApplicationFault::Misuse));
        };
        match applier.answer(answer) {
            Ok(applier) => {
                self.applier = Some(applier);
                Ok(())
            }
            Err(Fault::Refused(why)) => Err(Fault::Refused(ApplicationFault::Refused(why))),
            Err(Fault::OutOfMemory) => Err(Fault::OutOfMemory),
        }
    }

    /// Answers the conflict by a row of the caller's own, which stands there in place of the change, and goes on
    /// to the next conflict or to the end. The change itself counts as omitted.
    ///
    /// A row of another width is refused with `WrongWidth`. A row with another key than the change, and a row
    /// where it stands at no conflict, are misuse. Nothing changes then.
    pub fn answer_row(&mut self, alloc: Global, row: &[u8]) -> Result<(), Fault<ApplicationFault>>
        ensures { MergesRow row.now self.old self.new result }
    {
        cap_applier::laws::applications_keep_to_the_rows_that_they_look_at::<Global>();
        let row = match self.standing() {
            Some(applier) => merged_row(alloc, applier, row)?,
            None => return Err(Fault::Refused(ApplicationFault::Misuse)),
        };
        let Some(applier) = self.applier.take() else {
            return Err(Fault::Refused(ApplicationFault::Misuse));
        };
        match applier.merge(row) {
            Ok(applier) => {
                self.applier = Some(applier);
                Ok(())
            }
            Err(_) => Err(Fault::OutOfMemory),
        }
    }

    // ---- Its end

    /// The batch that makes what it left, once it is at the end; before, that is misuse. It is accepted exactly
    /// where each row that a change names is as it was in the snapshot, of the tables that the filter accepts.
    pub fn batch(&self) -> Result<Batch<Global>, Fault<ApplicationFault>>
        ensures batch { AnswersUnlessMemory result (batch_left self.now) }
        // On the snapshot its operations are accepted, and leave the rows that the application left.
        ensures left { IfOk result (MakesItsRows self.now) }
    {
        cap_applier::laws::a_transaction_leaves_what_the_application_left::<Global>();
        self.base.database().sound_rows_law();
        let Some(applier) = &self.applier else {
            return Err(Fault::Refused(ApplicationFault::Misuse));
        };
        if applier.conflict().is_some() {
            return Err(Fault::Refused(ApplicationFault::Misuse));
        }
        applier.applied().database().sound_rows_law();
        match applier.transaction(&self.base) {
            Ok(txn) => Ok(txn.into_batch()),
            Err(Fault::Refused(why)) => Err(Fault::Refused(ApplicationFault::Refused(why))),
            Err(Fault::OutOfMemory) => Err(Fault::OutOfMemory),
        }
    }

    /// What became of the changes so far, with the version of the snapshot. None where it is over.
    pub fn report(&self) -> Option<Applied>
        ensures { result ≡ report_of self.now }
    {
        let Some(applier) = &self.applier else {
            return None;
        };
        let report = applier.applied().report();
        Some(Applied {
            version: self.base.version(),
            applied: report.applied(),
            conflicts: report.conflicts().len() as u64,
            omitted: report.omitted().len() as u64,
            skipped: report.skipped().len() as u64,
        })
    }

    /// Whether the blob is a changeset, which has a buffer, and the application is not over.
    pub fn has_buffer(&self) -> bool
        ensures { (flags : Flags) → result ≡ is_some (buffer_left flags self.now) }
    {
        match &self.applier {
            Some(applier) => matches!(applier.blob(), Contents::Changes(_)),
            None => false,
        }
    }

    /// The buffer of its conflicts so far, for `cap_rebase`, with these key flags. None where the blob is a
    /// patchset, or it is over.
    pub fn buffer(
        &self,
        alloc: Global,
        key_flags: KeyFlags,
    ) -> Result<Option<Vec<u8, Global>>, OutOfMemory>
        ensures { IfOk result (λ it. option_map (λ bytes. bytes.items) it ≡ buffer_left key_flags self.now) }
    {
        let Some(applier) = &self.applier else {
            return Ok(None);
        };
        match applier.blob() {
            Contents::Changes(list) => {
                let conflicts = applier.applied().report().conflicts();
                let buffer = buffer_of(alloc, list, conflicts)?;
                Ok(Some(write_changes_with(alloc, key_flags, &buffer)?))
            }
            Contents::Patches(_) => Ok(None),
        }
    }

    // ---- What they share

    fn of_contents(
        alloc: Global,
        snapshot: &Snapshot<Global>,
        blob: Contents<Global>,
        filter: Option<TableFilter<Global>>,
    ) -> Result<Self, OutOfMemory>
        ensures { IfOk result (BeginsOf snapshot.now blob filter) }
    {
        cap_applier::laws::applications_keep_to_the_rows_that_they_look_at::<Global>();
        let applier = Applier::new(alloc, snapshot.database(), blob, filter)?;
        Ok(Application {
            base: snapshot.copy()?,
            applier: Some(applier),
        })
    }

    fn conflict(&self) -> Option<&RowConflict<Global>>
        ensures { option_copied result ≡ conflict_of self.now }
    {
        match &self.applier {
            Some(applier) => applier.conflict(),
            None => None,
        }
    }

    // The applier, where it stands at a conflict.
    fn standing(&self) -> Option<&Applier<Global>>
        ensures { option_copied result ≡ standing self.now }
    {
        match &self.applier {
            Some(applier) => if applier.conflict().is_some() {
                Some(applier)
            } else {
                None
            },
            None => None,
        }
    }
}

fn position_of(applier: &Applier<Global>) -> Position
    ensures { result ≡ position_of applier.now }
{
    Position {
        group: applier.group(),
        change: applier.change(),
    }
}

fn columns_at(applier: &Applier<Global>) -> usize
    ensures { result ≡ columns_at applier.now }
{
    match schema_at(applier.blob(), applier.group()) {
        Some(schema) => schema.width(),
        None => 0,
    }
}

// The record of one side of the change.
fn record_of(
    alloc: Global,
    applier: &Applier<Global>,
    side: Side,
) -> Result<Vec<u8, Global>, OutOfMemory>
    ensures { IfOk result (λ bytes. bytes.items ≡ record_at side applier.now) }
{
    side_record(
        alloc,
        applier.blob(),
        position_of(applier),
        side,
        columns_at(applier),
    )
}

fn record_of_present(
    alloc: Global,
    conflict: &RowConflict<Global>,
) -> Result<Option<Vec<u8, Global>>, OutOfMemory>
    ensures { IfOk result (λ it. option_map (λ bytes. bytes.items) it ≡ option_map values_bytes conflict.now.row) }
{
    match &conflict.row {
        Some(row) => Ok(Some(record_of_row(alloc, row)?)),
        None => Ok(None),
    }
}

/// The filter of a text, none of the empty text.
pub(crate) fn filter_in(
    alloc: Global,
    text: &[u8],
) -> Result<Option<TableFilter<Global>>, Fault<ApplicationFault>>
    ensures filter { AnswersUnlessMemory result (filter_in text.now) }
    ensures first { RefusesFirst (filter_misuse text.now) result }
{
    let Ok(text) = str::from_utf8(text) else {
        return Err(Fault::Refused(ApplicationFault::Misuse));
    };
    if text.is_empty() {
        return Ok(None);
    }
    match TableFilter::parse(alloc, text) {
        Ok(filter) => Ok(Some(filter)),
        Err(Fault::Refused(why)) => Err(Fault::Refused(ApplicationFault::NoFilter(why))),
        Err(Fault::OutOfMemory) => Err(Fault::OutOfMemory),
    }
}

// The row of a record, where it may stand in place of the change.
fn merged_row(
    alloc: Global,
    applier: &Applier<Global>,
    row: &[u8],
) -> Result<Row<Global>, Fault<ApplicationFault>>
    ensures { AnswersUnlessMemory result (row_to_merge applier.now row.now) }
{
    let row = match row_of(alloc, row) {
        Ok(row) => row,
        Err(Fault::Refused(wrong)) => {
            return Err(Fault::Refused(ApplicationFault::Malformed(wrong)));
        }
        Err(Fault::OutOfMemory) => return Err(Fault::OutOfMemory),
    };
    match applier.merge_refusal(&row)? {
        None => Ok(row),
        Some(why) => Err(Fault::Refused(merge_fault(why))),
    }
}

fn merge_fault(why: MergeRefusal) -> ApplicationFault
    ensures { result ≡ merge_fault why }
{
    match why {
        MergeRefusal::NoConflict => ApplicationFault::Misuse,
        MergeRefusal::WrongWidth => ApplicationFault::Refused(Refusal::WrongWidth),
        MergeRefusal::OtherKey => ApplicationFault::Misuse,
    }
}
