//! Laws of histories, sessions and captures. The functions do nothing when they run.
ghost use Rattle.std.specs.Prelude.{◌≡◌, ℕ, ◌+◌, [], ◌∷◌, ◌++◌, List};
ghost use Rattle.std.specs.Prelude.{length, reverse};
ghost use Rattle.std.specs.List.{All};
ghost use Rattle.cap_value.specs.Bytes.{bytes_cmp};
ghost use Rattle.cap_tree.specs.Tree.{IsOrdered};
ghost use Rattle.cap_database.specs.Tables.{AreRising, EachRises};
ghost use Rattle.cap_txn.specs.Batch.{BatchState, WhereRead};
ghost use Rattle.cap_txn.specs.Stale.{AreOpsOf};
ghost use Rattle.cap_core.specs.declared.command.Command.{Command};
ghost use Rattle.cap_core.specs.declared.event.Event.{Event};
ghost use Rattle.cap_core.specs.declared.reply.Reply.{Reply};
ghost use Rattle.cap_core.specs.Answer.{IsLegal, State, answer, event_by};
ghost use Rattle.cap_core.specs.Answer.{history_of, reply_of, snapshot_of, state, state_after};
ghost use Rattle.cap_core.specs.Commit.{CommitsIfUnchanged};
ghost use Rattle.cap_core.specs.Table.{BlobFits, BlobsFit, BlobsFitPast, IsKeyed, IsLoose};
ghost use Rattle.cap_core.specs.Transition.{next};

use crate::Command;
use cap_value::AllocHandle;

/// The empty history is legal, and a legal history with one more event is legal where the event has the reply
/// to its command. The state after it is then the next state, which counts the events. The reply to a command
/// after a history is the reply in the state after that history, and that state is the one after its events,
/// the newest first.
pub fn legal_histories_grow<A: AllocHandle>()
    ensures none { IsLegal {A = A} [] }
    ensures more { (h : List (Event A)) (by : ℕ) (command : Command A) → IsLegal h
        → IsLegal (h ++ event_by by command (reply_of h command) ∷ []) }
    ensures next { (h : List (Event A)) (by : ℕ) (command : Command A) → IsLegal h
        → state (h ++ event_by by command (reply_of h command) ∷ []) ≡ next (state h) command }
    ensures count { (h : List (Event A)) → (state h).events ≡ length h }
    ensures reply { (h : List (Event A)) (command : Command A)
        → reply_of h command ≡ answer (state h) command }
    ensures past { (h : List (Event A)) → state h ≡ state_after (reverse h) }
{}

/// In the empty history each blob that was applied fits its tables. So it is in a history with one more event
/// where the blob of its command fits its tables, as that of every command that a program can make does
/// (`Command::blob_fits`), in each beginning of such a history, and in the history of any such commands.
pub fn fitting_histories_grow<A: AllocHandle>()
    ensures none { BlobsFit {A = A} [] }
    ensures more { (h : List (Event A)) (by : ℕ) (command : Command A) (reply : Reply A) → BlobsFit h
        → BlobFits command → BlobsFit (h ++ event_by by command reply ∷ []) }
    ensures begins { (h : List (Event A)) (more : List (Event A)) → BlobsFit (h ++ more) → BlobsFit h }
    ensures all { (commands : List (Command A)) (replies : List (Reply A)) → All BlobFits commands
        → BlobsFit (history_of commands replies) }
    ensures past { (h : List (Event A)) → BlobsFit h → BlobsFitPast (reverse h) }
{}

/// A history whose last event is taken off a legal one is legal, and that event has the reply to its command
/// after it.
pub fn legal_histories_were_legal<A: AllocHandle>()
    ensures legal { (h : List (Event A)) (by : ℕ) (command : Command A) (reply : Reply A)
        → IsLegal (h ++ event_by by command reply ∷ []) → IsLegal h }
    ensures reply { (h : List (Event A)) (by : ℕ) (command : Command A) (reply : Reply A)
        → IsLegal (h ++ event_by by command reply ∷ []) → reply ≡ reply_of h command }
{}

/// The commit of a transaction's batch is accepted exactly where nothing that the transaction looked at has
/// changed, and then its calls, made whole at that point, are answered as they were. Else it is refused with
/// the first item that has changed.
pub fn transactions_commit_if_unchanged<A: AllocHandle>()
    ensures { (now : State A) (batch : BatchState A) → EachRises now.main →
        WhereRead batch.base batch.reads (AreOpsOf batch.ops) →
        WhereRead batch.base batch.reads
        (CommitsIfUnchanged (snapshot_of now) (answer now (Command.Commit batch))) }
{
    cap_txn::laws::footprints_judge_batches::<A>();
}

/// After any history whose blobs fit the names of the tables rise. In each table keys and ids rise, each row
/// has as many fields as the table has columns, and is stored under its own primary key, or under its id
/// where it has none. The next id is at least 1 and at most 2^63.
pub fn rows_are_under_own_keys<A: AllocHandle>()
    ensures names { (h : List (Event A)) → BlobsFit h → IsOrdered bytes_cmp (state h).main }
    ensures keyed { (h : List (Event A)) → BlobsFit h → All (λ named. IsKeyed named.1) (state h).main }
    ensures loose { (h : List (Event A)) → BlobsFit h → All (λ named. IsLoose named.1) (state h).main }
    ensures rising { (h : List (Event A)) → BlobsFit h → AreRising (state h).main }
{
    cap_database::laws::tables_keep_order::<A>();
    cap_apply::laws::applied_blobs_keep_order::<A>();
}
