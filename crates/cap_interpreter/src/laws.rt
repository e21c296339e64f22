//! Laws of lines, over the definitions alone. The functions do nothing.
ghost use Rattle.std.specs.Prelude.{◌≡◌, ◌++◌, ◌∷◌, [], List, None, Ok, Some, false};
ghost use Rattle.cap_txn.specs.Transaction.{TxnState, batch_of, reads_of};
ghost use Rattle.cap_core.specs.Answer.{event_by, reply_of, snapshot_of, state};
ghost use Rattle.cap_core.specs.Commit.{CommitsIfUnchanged};
ghost use Rattle.cap_core.specs.Table.{BlobsFit};
ghost use Rattle.cap_core.specs.declared.command.Command.{Command};
ghost use Rattle.cap_replies.specs.Printed.{reply_text};
ghost use Rattle.cap_replies.specs.declared.run_line.RunLine.{RunLine};
ghost use Rattle.cap_interpreter.specs.Application.{ApplicationState, transaction_left};
ghost use Rattle.cap_interpreter.specs.declared.held.Open.{Open};
ghost use Rattle.cap_interpreter.specs.Lines.{Course, IsApplying, IsOn, after_line, after_lines, begin_course};
ghost use Rattle.cap_interpreter.specs.Lines.{is_step, text_of};

use cap_value::AllocHandle;

/// Where nothing is open, a line that is no step is its command of the server: it is one event,
/// and its reply is that command's. So lines without a step are the commands of the sequential server.
pub fn lines_without_steps_are_commands<A: AllocHandle>()
    ensures event { (course : Course A) (line : RunLine A) → course.txn ≡ None
        → is_step line.line.show ≡ false → after_line course line ≡ record {
          history = course.history
              ++ event_by 0 line.line.command (reply_of course.history line.line.command) ∷ [];
          txn = None;
        } }
    ensures text { (course : Course A) (line : RunLine A) → course.txn ≡ None
        → is_step line.line.show ≡ false
        → text_of course line ≡ reply_text line (reply_of course.history line.line.command) }
{}

/// After any lines, the transaction that is open is on a snapshot of a beginning of the history, and is what
/// its calls make of it. Its commit is accepted exactly where nothing that it looked at has changed since: then
/// its calls, made whole at this point, are answered as they were. Else the refusal names the first item that
/// has changed.
pub fn transactions_of_lines_commit_if_unchanged<A: AllocHandle>()
    ensures base { (lines : List (RunLine A)) (txn : TxnState A) →
        let course = after_lines begin_course lines in
        course.txn ≡ Some (Open.Transaction txn) → IsOn course.history txn }
    ensures commit { (lines : List (RunLine A)) (txn : TxnState A) →
        let course = after_lines begin_course lines in
        course.txn ≡ Some (Open.Transaction txn) → BlobsFit course.history
        → CommitsIfUnchanged (snapshot_of (state course.history))
        (reply_of course.history (Command.Commit (batch_of txn)))
        txn.workspace.base.version (reads_of txn) }
{
    cap_txn::laws::transactions_are_traced::<A>();
    cap_applier::laws::applications_keep_to_the_rows_that_they_look_at::<A>();
    cap_core::laws::transactions_commit_if_unchanged::<A>();
    cap_core::laws::rows_are_under_own_keys::<A>();
    cap_core::laws::fitting_histories_grow::<A>();
    cap_core::laws::legal_histories_grow::<A>();
}

/// After any lines, the application that is open is on a snapshot of a beginning of the history, and changes none
/// but the rows that it looks at. Its commit is accepted exactly where none of them has changed since; else the
/// refusal names the first item that has changed.
pub fn applications_of_lines_commit_if_unchanged<A: AllocHandle>()
    ensures keeps { (lines : List (RunLine A)) (app : ApplicationState A) →
        let course = after_lines begin_course lines in
        course.txn ≡ Some (Open.Application app) → IsApplying course.history app }
    ensures commit { (lines : List (RunLine A)) (app : ApplicationState A) (txn : TxnState A) →
        let course = after_lines begin_course lines in
        course.txn ≡ Some (Open.Application app) → transaction_left app ≡ Ok txn → BlobsFit course.history
        → CommitsIfUnchanged (snapshot_of (state course.history))
        (reply_of course.history (Command.Commit (batch_of txn)))
        txn.workspace.base.version (reads_of txn) }
{
    cap_txn::laws::transactions_are_traced::<A>();
    cap_core::laws::transactions_commit_if_unchanged::<A>();
    cap_applier::laws::applications_keep_to_the_rows_that_they_look_at::<A>();
    cap_core::laws::rows_are_under_own_keys::<A>();
    cap_core::laws::fitting_histories_grow::<A>();
    cap_core::laws::legal_histories_grow::<A>();
}
