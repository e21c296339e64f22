//! The first line of a workload, and what the laws of lines say of it.
ghost use Rattle.std.specs.Prelude.{◌≡◌, ◌∷◌, [], IsTrue, None};
ghost use Rattle.cap_txn.specs.Transaction.{batch_of, begin_traced, reads_of};
ghost use Rattle.cap_core.specs.Answer.{event_by, reply_of, snapshot_of, state};
ghost use Rattle.cap_core.specs.Commit.{CommitsIfUnchanged};
ghost use Rattle.cap_core.specs.declared.command.Command.{Command};
ghost use Rattle.cap_interpreter.specs.Lines.{after_line, begin_course, text_of};
ghost use Rattle.cap_replies.specs.Printed.{reply_text};
ghost use Rattle.cap_replies.specs.declared.run_line.RunLine.{RunLine};
ghost use Rattle.cap_script.specs.declared.line.Show.{Show};
ghost use Rattle.cap_script.specs.declared.step.Step.{Step};

use cap_replies::RunLine;
use cap_script::Show;
use cap_value::AllocHandle;

/// Whether the line is no step of a transaction or of an application. Then it is one event of the server, and its
/// reply is that of its command.
pub fn is_one_event<A: AllocHandle>(line: &RunLine<A>) -> bool
    ensures event { IsTrue result → after_line begin_course line.now ≡ record {
      history = event_by 0 line.now.line.command (reply_of [] line.now.line.command) ∷ [];
      txn = None;
    } }
    ensures text { IsTrue result
        → text_of begin_course line.now ≡ reply_text line.now (reply_of [] line.now.line.command) }
{
    cap_interpreter::laws::lines_without_steps_are_commands::<A>();
    match line.line.show {
        Show::Step(_) => false,
        _ => true,
    }
}

/// The line `begin`: the commit of the transaction that it opens is accepted where nothing has changed since.
pub fn a_begin<A: AllocHandle>()
    ensures { (line : RunLine A) → line.line.show ≡ Show.Step Step.Begin →
        let course = after_line begin_course line in
        let txn = begin_traced (snapshot_of (state [])) in
        CommitsIfUnchanged (snapshot_of (state course.history))
        (reply_of course.history (Command.Commit (batch_of txn)))
        txn.workspace.base.version (reads_of txn) }
{
    cap_interpreter::laws::transactions_of_lines_commit_if_unchanged::<A>();
}
