//! Laws of applying captured changes, over the definitions alone. The functions do nothing at run time.
ghost use Rattle.std.specs.Prelude.{◌≡◌, ℕ, ◌+◌, Bool, Some, List, Ok, IfOk, IsTrue, length, map};
ghost use Rattle.cap_row.specs.Schema.{has_key};
ghost use Rattle.cap_table.specs.Table.{TableState};
ghost use Rattle.cap_database.specs.Carried.{CarryFirstRows};
ghost use Rattle.cap_database.specs.Operation.{run};
ghost use Rattle.cap_database.specs.Tables.{AreRising, Tables};
ghost use Rattle.cap_database.specs.declared.op.Op.{Op};
ghost use Rattle.cap_changes.specs.Fits.{change_fits, patch_fits};
ghost use Rattle.cap_changes.specs.Patch.{patch_list_of};
ghost use Rattle.cap_changes.specs.declared.patch.Patch.{Patch};
ghost use Rattle.cap_changes.specs.declared.row_change.RowChange.{RowChange};
ghost use Rattle.cap_codec.specs.Spelling.{Spells};
ghost use Rattle.cap_codec.specs.declared.read.Contents.{Contents};
ghost use Rattle.cap_codec.specs.declared.read.Contents.TheVariants.{Changes, Patches};
ghost use Rattle.cap_apply.specs.Applied.{AppliedState};
ghost use Rattle.cap_apply.specs.Apply.{apply, change_applied, changes_applied};
ghost use Rattle.cap_apply_laws.specs.Counted.{AreReportedOnce, change_count, changes_in_groups};
ghost use Rattle.cap_apply.specs.Difference as rows;
ghost use Rattle.cap_apply.specs.Difference.{AllApplied, Difference, GivesRowsNow, OtherTables, RowsAfter, RowsBefore, turned};
ghost use Rattle.cap_apply.specs.Fitting.{FitsItsColumns};
ghost use Rattle.cap_apply.specs.Operations.{IsMadeOrOmitted, operations_of_change, operations_of_patch};
ghost use Rattle.cap_apply.specs.Requested.{requested_by_change, requested_by_patch};
ghost use Rattle.cap_apply.specs.Target.{target};
ghost use Rattle.cap_apply.specs.Captured.{AllBefore, AllDiffer, GivesAllRowsNow, TableRows, changes_of};
ghost use Rattle.cap_apply.specs.declared.policy.Policy.{Policy};

use cap_value::AllocHandle;

/// A captured changeset, applied where each key has its first image, gives the rows now, under any policy: no
/// change conflicts.
#[tactic(auto, using(crate::proofs::DifferenceLemmas::changes_give))]
pub fn changes_give_the_rows_now<A: AllocHandle>()
    ensures { (policy : Policy) (number : ℕ) (name : List ℕ) (table : TableState A) (ds : List (Difference A))
        (state : AppliedState A) → RowsBefore name table ds state.database →
        GivesRowsNow policy number name table ds (rows.requested_by_changes table.schema ds) state }
{}

/// The same for its patchset.
pub fn patches_give_the_rows_now<A: AllocHandle>()
    ensures { (policy : Policy) (number : ℕ) (name : List ℕ) (table : TableState A) (ds : List (Difference A))
        (state : AppliedState A) → RowsBefore name table ds state.database →
        GivesRowsNow policy number name table ds (rows.requested_by_patches table.schema ds) state }
{}

/// A captured changeset of several tables, applied as a blob, gives the rows now: its report counts every
/// change as applied, and has no conflict and nothing omitted or skipped.
#[tactic(auto, using(crate::proofs::BlobLemmas::changeset_gives))]
pub fn a_changeset_gives_the_rows_now<A: AllocHandle>()
    ensures { (policy : Policy) (ts : List (TableRows A)) (database : Tables A) → AllBefore ts database →
        GivesAllRowsNow policy ts (Changes (map changes_of ts)) database }
{}

/// The same for its patchset.
pub fn a_patchset_gives_the_rows_now<A: AllocHandle>()
    ensures { (policy : Policy) (ts : List (TableRows A)) (database : Tables A) → AllBefore ts database →
        GivesAllRowsNow policy ts (Patches (patch_list_of (map changes_of ts))) database }
{}

/// The changes of a captured changeset of several tables that each have a difference fit the columns of their
/// groups, and so do those of its patchset.
pub fn captures_fit_their_columns<A: AllocHandle>()
    ensures changeset { (ts : List (TableRows A)) (database : Tables A) → AllBefore ts database → AllDiffer ts
        → FitsItsColumns (Changes (map changes_of ts)) }
    ensures patchset { (ts : List (TableRows A)) (database : Tables A) → AllBefore ts database → AllDiffer ts
        → FitsItsColumns (Patches (patch_list_of (map changes_of ts))) }
{}

/// The changes that bytes spell fit the columns of their groups.
#[tactic(auto, using(crate::proofs::FittingLemmas::spelled_fits))]
pub fn spelled_blobs_fit_their_columns<A: AllocHandle>()
    ensures { (blob : Contents A) (bytes : List ℕ) → Spells blob bytes → FitsItsColumns blob }
{}

/// A captured changeset, applied where each key has its first image, and then its inverse give the first rows
/// again, under any policy.
#[tactic(auto, using(crate::proofs::DifferenceLemmas::inverse_gives))]
pub fn inverse_gives_the_first_rows_again<A: AllocHandle>()
    ensures { (policy : Policy) (number : ℕ) (name : List ℕ) (table : TableState A) (ds : List (Difference A))
        (state : AppliedState A) → RowsBefore name table ds state.database →
        (left : AppliedState A) × (again : AppliedState A)
        × (changes_applied policy number name table.schema
        (rows.requested_by_changes table.schema ds) state ≡ Ok left)
        × (changes_applied policy number name table.schema
        (rows.requested_by_inverses table.schema ds) left ≡ Ok again)
        × RowsAfter name table (map (turned table.schema) ds) again.database
        × OtherTables name state.database again.database × AllApplied ds left again }
{}

/// Whatever the policy, the changes that a report counts as applied, its omitted changes and those in its
/// skipped groups are together the changes of the blob. No omitted change and no skipped group comes twice,
/// and no omitted change is in a skipped group.
#[tactic(auto, using(crate::proofs::CountLemmas::blob_told))]
pub fn each_change_is_counted_once<A: AllocHandle>()
    ensures counts { (tables : Tables A) (blob : Contents A) (policy : Policy) →
        IfOk (apply tables blob policy) (λ left. left.report.applied + length left.report.omitted
        + changes_in_groups blob left.report.skipped ≡ change_count blob) }
    ensures once { (tables : Tables A) (blob : Contents A) (policy : Policy) →
        IfOk (apply tables blob policy) (λ left. AreReportedOnce blob left.report) }
{}

/// Each change that counts as applied is made by the operations that it stands for: an insert, an update or a
/// delete, and before an insert that replaces a row the delete of that row. An omitted change has a conflict
/// that the policy answers with `Omit`, and does nothing. So a whole blob is made by a list of operations.
pub fn changes_are_made_by_operations<A: AllocHandle>()
    ensures changeset { (policy : Policy) (number : ℕ) (name : List ℕ) (flags : List Bool)
        (change : RowChange A) (state : AppliedState A) (table : TableState A) → AreRising state.database
        → IsTrue (has_key flags) → IsTrue (change_fits flags change)
        → target state.database name flags ≡ Some table
        → IfOk (change_applied policy number name flags (requested_by_change flags change) state)
        (IsMadeOrOmitted number (operations_of_change name flags table change) state) }
    ensures patchset { (policy : Policy) (number : ℕ) (name : List ℕ) (flags : List Bool)
        (patch : Patch A) (state : AppliedState A) (table : TableState A) → AreRising state.database
        → IsTrue (has_key flags) → IsTrue (patch_fits flags patch)
        → target state.database name flags ≡ Some table
        → IfOk (change_applied policy number name flags (requested_by_patch flags patch) state)
        (IsMadeOrOmitted number (operations_of_patch name flags table patch) state) }
    ensures blob { (tables : Tables A) (blob : Contents A) (policy : Policy) → AreRising tables
        → FitsItsColumns blob → IfOk (apply tables blob policy) (λ left. (ops : List (Op A))
        × (run tables ops ≡ Ok (record { database = left.database; changes = left.changes }))) }
{
    cap_database::laws::tables_keep_order::<A>();
}

/// The first change of each row by a blob carries the row that was there before the blob, or its absence.
pub fn applied_changes_carry_the_rows_before<A: AllocHandle>()
    ensures { (tables : Tables A) (blob : Contents A) (policy : Policy) → IfOk (apply tables blob policy)
        (λ left. CarryFirstRows tables left.changes) }
{}
