//! Laws of transactions and their batches, over the definitions alone. The functions do nothing.
ghost use Rattle.std.specs.Prelude.{◌≡◌, ℕ, IfOk, List};
ghost use Rattle.cap_database.specs.Snapshot.{SnapshotState};
ghost use Rattle.cap_database.specs.Tables.{EachRises};
ghost use Rattle.cap_database.specs.declared.op.Op.{Op};
ghost use Rattle.cap_txn.specs.Calls.{GoesThrough, footprint};
ghost use Rattle.cap_txn.specs.Footprint.{Unchanged};
ghost use Rattle.cap_txn.specs.ReadSet.{ReadSetState};
ghost use Rattle.cap_txn.specs.Stale.{AreOpsOf, IsJudged};
ghost use Rattle.cap_txn.specs.Sound.{IsSound, Leaves};
ghost use Rattle.cap_txn.specs.Transaction.{IsTraced, TxnState, begin_traced, reads_of, traced};
ghost use Rattle.cap_txn.specs.Workspace.{WorkspaceState, after_back, after_op, after_savepoint, begin};
ghost use Rattle.cap_txn.specs.declared.answered_call.Asked.{Asked};

use cap_value::AllocHandle;

/// A transaction's database is always what its operations leave of the snapshot's, and so is that of each
/// savepoint: it holds at first and after each call. So the operations that stand, made on the database that
/// the transaction began with, are accepted and leave what the transaction showed.
pub fn transactions_are_sound<A: AllocHandle>()
    ensures begin { (snapshot : SnapshotState A) → IsSound (begin snapshot) }
    ensures op { (txn : WorkspaceState A) (op : Op A) → IsSound txn →
        IfOk (after_op txn op) IsSound }
    ensures savepoint { (txn : WorkspaceState A) → IsSound txn → IfOk (after_savepoint txn) IsSound }
    ensures back { (txn : WorkspaceState A) (number : ℕ) → IsSound txn →
        IfOk (after_back txn number) IsSound }
    ensures ops { (txn : WorkspaceState A) → IsSound txn →
        Leaves txn.base.database txn.ops txn.database }
{}

/// A transaction's footprint and trace are those of its calls: at first, and after each call. So its batch is
/// a transaction's.
pub fn transactions_are_traced<A: AllocHandle>()
    ensures begin { (snapshot : SnapshotState A) → IsTraced (begin_traced snapshot) }
    ensures call { (txn : TxnState A) (call : Asked A) → IsTraced txn → IsTraced (traced txn call) }
    ensures batch { (txn : TxnState A) → IsTraced txn → EachRises txn.workspace.base.database →
        AreOpsOf txn.workspace.ops txn.workspace.base.version (reads_of txn) }
{}

/// Where each item of the footprint looks as it did, the calls are answered as they were, and the operations
/// that stood are accepted.
pub fn unchanged_footprints_answer_alike<A: AllocHandle>()
    ensures { (base now : SnapshotState A) (calls : List (Asked A)) → EachRises base.database →
        EachRises now.database → Unchanged base.database now.database (footprint calls base) →
        GoesThrough calls base now }
{}

/// A transaction's batch is out of date exactly where an item of its footprint has changed.
pub fn footprints_judge_batches<A: AllocHandle>()
    ensures { (made : List (Op A)) (base : ℕ) (reads : ReadSetState A) (now : SnapshotState A) →
        AreOpsOf made base reads → EachRises now.database → IsJudged made now base reads }
{}
