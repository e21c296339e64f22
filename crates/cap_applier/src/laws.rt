//! Laws of applications that stop at conflicts, and of those that are committed as transactions. The functions
//! do nothing when they run.
ghost use Rattle.std.specs.Prelude.{◌≡◌, ℕ, Err, IfOk, List, None, Ok, Option, Some, is_some, true};
ghost use Rattle.cap_value.specs.declared.refusal.Refusal.{Refusal};
ghost use Rattle.cap_row.specs.Fields.{Fields};
ghost use Rattle.cap_filter.specs.Rule.{Rule};
ghost use Rattle.cap_database.specs.Read.{row_at};
ghost use Rattle.cap_database.specs.Tables.{EachRises, Tables, table_of};
ghost use Rattle.cap_database.specs.Snapshot.{SnapshotState};
ghost use Rattle.cap_codec.specs.declared.read.Contents.{Contents};
ghost use Rattle.cap_txn.specs.Sound.{Leaves};
ghost use Rattle.cap_txn.specs.Transaction.{TxnState};
ghost use Rattle.cap_apply.specs.Apply.{and_then, apply};
ghost use Rattle.cap_apply.specs.Policy.{answer_to};
ghost use Rattle.cap_apply.specs.declared.policy.Answer.{Answer};
ghost use Rattle.cap_apply.specs.declared.policy.Policy.{Policy};
ghost use Rattle.cap_applier.specs.Applier.{ApplierState, IsAtEnd, answered, begun, merged_at, met};
ghost use Rattle.cap_applier.specs.Counted.{CountsChange, CountsOne};
ghost use Rattle.cap_applier.specs.Named.{IsUnnamed, SameRow};
ghost use Rattle.cap_applier.specs.Reach.{IsReached};
ghost use Rattle.cap_applier.specs.Remaining.{AcceptsAll, remaining};
ghost use Rattle.cap_applier.specs.declared.row_conflict.RowConflict.{RowConflict};
ghost use Rattle.cap_applier.specs.Looked.{KeepsTo, SameRows};
ghost use Rattle.cap_applier.specs.Transaction.{transaction_of};

use cap_value::AllocHandle;

/// An applier whose every conflict is answered as a policy answers it leaves what `cap_apply::apply` leaves
/// under the policy: at first all of the blob remains, each step keeps what the policy makes of the changes
/// that remain, and at the end none remains.
pub fn answers_of_a_policy_apply_the_blob<A: AllocHandle>()
    ensures first { (tables : Tables A) (blob : Contents A) (policy : Policy)
        → remaining policy (begun tables blob None) ≡ apply tables blob policy }
    ensures between { (policy : Policy) (from to : ApplierState A) → AcceptsAll from.filter
        → IsReached from to
        → (remaining policy to ≡ remaining policy from) × (to.filter ≡ from.filter) }
    ensures step { (policy : Policy) (s : ApplierState A) (conflict : RowConflict A)
        → AcceptsAll s.filter → met s ≡ Some conflict
        → and_then (answered (answer_to policy conflict.kind) s) (remaining policy)
        ≡ remaining policy s }
    ensures last { (policy : Policy) (s : ApplierState A) → IsAtEnd s
        → remaining policy s ≡ Ok s.progress.applied }
{}

/// A row that stands in place of a change is under the key that the change names, and all other rows with a
/// key are as before. The change counts as omitted.
pub fn a_merged_row_stands_at_its_key<A: AllocHandle>()
    ensures stands { (s : ApplierState A) (conflict : RowConflict A) (row : Fields A)
        → is_some (table_of s.progress.applied.database conflict.table) ≡ true
        → row_at (merged_at (Some conflict) row s).progress.applied.database conflict.table conflict.key
        ≡ Some row }
    ensures others { (s : ApplierState A) (conflict : RowConflict A) (row : Fields A)
        → is_some (table_of s.progress.applied.database conflict.table) ≡ true
        → (name : List ℕ) (key : Fields A) → (conflict.table ≡ name → conflict.key ≡ key → ⊥)
        → SameRow name key s (merged_at (Some conflict) row s) }
    ensures counted { (s : ApplierState A) (conflict : RowConflict A) (row : Fields A)
        → CountsChange s.progress (merged_at (Some conflict) row s).progress }
{}

/// Whatever the answers, a row that no change of the blob names stays as it is.
pub fn rows_that_no_change_names_stay<A: AllocHandle>()
    ensures step { (answer : Answer) (s : ApplierState A) (name : List ℕ) (key : Fields A)
        → IsUnnamed s.blob name key → IfOk (answered answer s) (SameRow name key s) }
    ensures between { (from to : ApplierState A) (name : List ℕ) (key : Fields A)
        → IsUnnamed from.blob name key → IsReached from to → SameRow name key from to }
{}

/// Whatever the answer, a step counts one change, as applied or as omitted, or leaves one group behind. The
/// numbers of changes and groups rise by one, so none counts twice.
pub fn a_step_counts_one_change_or_leaves_one_group<A: AllocHandle>()
    ensures { (answer : Answer) (s : ApplierState A)
        → IfOk (answered answer s) (λ next. CountsOne s.progress next.progress) }
{}

/// Whatever the answers, an application changes none but the rows that it looks at: those that a change of the
/// blob names, of the tables that the filter accepts. Tables, columns and rows without a key stay.
pub fn applications_keep_to_the_rows_that_they_look_at<A: AllocHandle>()
    ensures first { (tables : Tables A) (blob : Contents A) (filter : Option Rule) → KeepsTo tables (begun tables blob filter) }
    ensures step { (base : Tables A) (answer : Answer) (s : ApplierState A) → KeepsTo base s
        → IfOk (answered answer s) (KeepsTo base) }
    ensures merged { (base : Tables A) (s : ApplierState A) (row : Fields A) → KeepsTo base s
        → KeepsTo base (merged_at (met s) row s) }
    ensures between { (base : Tables A) (from to : ApplierState A) → KeepsTo base from → IsReached from to
        → KeepsTo base to }
{}

/// The transaction of an application leaves the tables with the rows that the application left, by operations
/// that are all accepted on the snapshot. It is never refused, however many operations it has.
pub fn a_transaction_leaves_what_the_application_left<A: AllocHandle>()
    ensures rows { (base : SnapshotState A) (s : ApplierState A) (txn : TxnState A)
        → EachRises base.database → EachRises s.progress.applied.database → KeepsTo base.database s
        → transaction_of base s ≡ Ok txn → SameRows s.progress.applied.database txn.workspace.database }
    ensures accepted { (base : SnapshotState A) (s : ApplierState A) (txn : TxnState A)
        → transaction_of base s ≡ Ok txn → Leaves base.database txn.workspace.ops txn.workspace.database }
    ensures refused { (base : SnapshotState A) (s : ApplierState A) (why : Refusal)
        → EachRises base.database → EachRises s.progress.applied.database → KeepsTo base.database s
        → transaction_of base s ≡ Err why → ⊥ }
{}
