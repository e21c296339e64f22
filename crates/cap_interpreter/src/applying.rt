//! Lines where an application is open.
ghost use Rattle.std.specs.Prelude.{◌≡◌, ◌++◌, None, Some, true, IfErr, IfOk, OnErr, OnOk, is_some};
ghost use Rattle.std.specs.Prelude.{string_bytes};
ghost use Rattle.cap_applier.specs.Applier.{met};
ghost use Rattle.cap_applier.specs.Merge.{refused_merge};
ghost use Rattle.cap_txn.specs.Transaction.{batch_of};
ghost use Rattle.cap_core.specs.Outcome.{change_refused};
ghost use Rattle.cap_core.specs.declared.reply.Reply.{Reply};
ghost use Rattle.cap_replies.specs.Outcomes.{outcome_text};
ghost use Rattle.cap_replies.specs.Printed.{reply_text};
ghost use Rattle.cap_replies.specs.Stops.{stop_text};
ghost use Rattle.cap_script.specs.declared.line.Show.{Show};
ghost use Rattle.cap_script.specs.declared.step.Step.{Step};
ghost use Rattle.cap_interpreter.specs.Application.{put_in};
ghost use Rattle.cap_interpreter.specs.Code.Runs.{Did, Ran, holding};
ghost use Rattle.cap_interpreter.specs.Lines.{deed, deed_answer, deed_put, ended_line, on_a_line};
ghost use Rattle.cap_interpreter.specs.Lines.{put_outcome};
ghost use Rattle.cap_interpreter.specs.Lines.Deed.{EndApply, Stand};
ghost use Rattle.cap_interpreter.specs.declared.held.Open.{Open};

use crate::application::Application;
use crate::commands::serve;
use crate::held::Open;
use crate::lines::{serve_line, tell};
use crate::printed::{print_refusal, print_stop};
use cap_applier::MergeRefusal;
use cap_apply::Answer;
use cap_core::{Command, Core, EVENTS_MAX};
use cap_locked::CallFault;
use cap_replies::{Outcome, RunLine};
use cap_row::Row;
use cap_script::{Line, Show, Step};
use cap_txn::{Answer as Told, Txn};
use cap_value::{AllocHandle, Fault, Refusal};

// Runs a line where this application is open. The answer is what is open after it.
pub(crate) fn run_applying<A: AllocHandle>(
    alloc: A,
    core: &mut Core<A>,
    app: Application<A>,
    line: &RunLine<A>,
    made: &mut String<A>,
    output: &mut String<A>,
) -> Result<Option<Open<A>>, CallFault>
    ensures { Ran line.now (holding core.old (Some (Open.Application app))) core.new result
        (string_bytes output.old) (string_bytes output.new) }
{
    match &line.line.show {
        Show::Step(step) => step_applying(alloc, core, app, step, line, made, output),
        _ => serve_line(
            alloc,
            core,
            Some(Open::Application(app)),
            line,
            made,
            output,
        ),
    }
}

// Runs a step where this application is open.
fn step_applying<A: AllocHandle>(
    alloc: A,
    core: &mut Core<A>,
    app: Application<A>,
    step: &Step<A>,
    line: &RunLine<A>,
    made: &mut String<A>,
    output: &mut String<A>,
) -> Result<Option<Open<A>>, CallFault>
    requires step { line.now.line.show ≡ Show.Step step.now }
    ensures { Ran line.now (holding core.old (Some (Open.Application app))) core.new result
        (string_bytes output.old) (string_bytes output.new) }
{
    match step {
        Step::Begin => keep(alloc, app, &Outcome::InTransaction, line, made, output),
        Step::ApplyEach(_, _) => keep(alloc, app, &Outcome::InTransaction, line, made, output),
        Step::Call(_) => keep(alloc, app, &Outcome::NoTransaction, line, made, output),
        Step::Rollback => tell(alloc, None, &Outcome::RolledBack, line, made, output),
        Step::End => end(alloc, core, app, line, made, output),
        Step::Answer(answer) => answer_conflict(alloc, app, *answer, line, made, output),
        Step::Put(row) => put_row(alloc, app, row, line, made, output),
    }
}

// Prints what a line did that leaves the application as it is.
fn keep<A: AllocHandle>(
    alloc: A,
    app: Application<A>,
    outcome: &Outcome<A>,
    line: &RunLine<A>,
    made: &mut String<A>,
    output: &mut String<A>,
) -> Result<Option<Open<A>>, CallFault>
    ensures left { IfOk result (λ left. left ≡ Some (Open.Application app)) }
    ensures text { OnOk result (string_bytes output.new
        ≡ string_bytes output.old ++ on_a_line (outcome_text line.now outcome.now)) }
    ensures memory { IfErr result (λ fault. fault ≡ CallFault.OutOfMemory) }
    ensures same { OnErr result (string_bytes output.new ≡ string_bytes output.old) }
{
    let held = Some(Open::Application(app));
    tell(alloc, held, outcome, line, made, output)
}

// Answers the conflict, if it stands at one.
fn answer_conflict<A: AllocHandle>(
    alloc: A,
    app: Application<A>,
    answer: Answer,
    line: &RunLine<A>,
    made: &mut String<A>,
    output: &mut String<A>,
) -> Result<Option<Open<A>>, CallFault>
    ensures { Did line.now (deed_answer app answer (met app.applier)) (Some (Open.Application app)) result
        (string_bytes output.old) (string_bytes output.new) }
{
    if app.is_at_conflict() {
        return decide(alloc, app, answer, line, made, output);
    }
    keep(alloc, app, &Outcome::NoConflict, line, made, output)
}

// Answers the conflict at which it stands.
fn decide<A: AllocHandle>(
    alloc: A,
    app: Application<A>,
    answer: Answer,
    line: &RunLine<A>,
    made: &mut String<A>,
    output: &mut String<A>,
) -> Result<Option<Open<A>>, CallFault>
    requires conflict { is_some (met app.applier) ≡ true }
    ensures { Did line.now (deed_answer app answer (met app.applier)) (Some (Open.Application app)) result
        (string_bytes output.old) (string_bytes output.new) }
{
    match app.answer(answer) {
        Ok(app) => stand(alloc, app, line, made, output),
        Err(Fault::Refused(why)) => close(alloc, why, line, made, output),
        Err(Fault::OutOfMemory) => Err(CallFault::OutOfMemory),
    }
}

// Puts a row in place of the change, if it may stand there.
fn put_row<A: AllocHandle>(
    alloc: A,
    app: Application<A>,
    row: &Row<A>,
    line: &RunLine<A>,
    made: &mut String<A>,
    output: &mut String<A>,
) -> Result<Option<Open<A>>, CallFault>
    ensures { Did line.now (deed_put app row.now (refused_merge app.applier row.now))
        (Some (Open.Application app)) result (string_bytes output.old) (string_bytes output.new) }
{
    let Ok(refused) = app.refused_put(row) else {
        return Err(CallFault::OutOfMemory);
    };
    match refused {
        None => put_fitting(alloc, app, row, line, made, output),
        Some(why) => keep(alloc, app, &outcome_of(why), line, made, output),
    }
}

fn put_fitting<A: AllocHandle>(
    alloc: A,
    app: Application<A>,
    row: &Row<A>,
    line: &RunLine<A>,
    made: &mut String<A>,
    output: &mut String<A>,
) -> Result<Option<Open<A>>, CallFault>
    requires fits { refused_merge app.applier row.now ≡ None }
    ensures { Did line.now (Stand (put_in row.now app)) (Some (Open.Application app)) result
        (string_bytes output.old) (string_bytes output.new) }
{
    let Ok(row) = row.copy() else {
        return Err(CallFault::OutOfMemory);
    };
    match app.put(row) {
        Ok(app) => stand(alloc, app, line, made, output),
        Err(_) => Err(CallFault::OutOfMemory),
    }
}

// What a row that may not be put is told as.
fn outcome_of<A: AllocHandle>(why: MergeRefusal) -> Outcome<A>
    ensures { result ≡ put_outcome why }
{
    match why {
        MergeRefusal::NoConflict => Outcome::NoConflict,
        MergeRefusal::WrongWidth => Outcome::Answer(Told::Refused(Refusal::WrongWidth)),
        MergeRefusal::OtherKey => Outcome::OtherKey,
    }
}

// Prints where the application stands.
fn stand<A: AllocHandle>(
    alloc: A,
    app: Application<A>,
    line: &RunLine<A>,
    made: &mut String<A>,
    output: &mut String<A>,
) -> Result<Option<Open<A>>, CallFault>
    ensures left { IfOk result (λ left. left ≡ Some (Open.Application app)) }
    ensures text { OnOk result (string_bytes output.new
        ≡ string_bytes output.old ++ on_a_line (stop_text line.now app.applier)) }
    ensures memory { IfErr result (λ fault. fault ≡ CallFault.OutOfMemory) }
    ensures same { OnErr result (string_bytes output.new ≡ string_bytes output.old) }
{
    match print_stop(alloc, line, app.applier(), made, output) {
        Ok(()) => Ok(Some(Open::Application(app))),
        Err(_) => Err(CallFault::OutOfMemory),
    }
}

// Prints the refusal that ends the application.
fn close<A: AllocHandle>(
    alloc: A,
    why: Refusal,
    line: &RunLine<A>,
    made: &mut String<A>,
    output: &mut String<A>,
) -> Result<Option<Open<A>>, CallFault>
    ensures left { IfOk result (λ left. left ≡ None) }
    ensures text { OnOk result (string_bytes output.new
        ≡ string_bytes output.old ++ on_a_line (reply_text line.now (Reply.Refused (change_refused why) why))) }
    ensures memory { IfErr result (λ fault. fault ≡ CallFault.OutOfMemory) }
    ensures same { OnErr result (string_bytes output.new ≡ string_bytes output.old) }
{
    match print_refusal(alloc, line, why, made, output) {
        Ok(()) => Ok(None),
        Err(_) => Err(CallFault::OutOfMemory),
    }
}

// Commits the application, if it stands at its end.
fn end<A: AllocHandle>(
    alloc: A,
    core: &mut Core<A>,
    app: Application<A>,
    line: &RunLine<A>,
    made: &mut String<A>,
    output: &mut String<A>,
) -> Result<Option<Open<A>>, CallFault>
    requires ends { line.now.line.show ≡ Show.Step Step.End }
    ensures { Ran line.now (holding core.old (Some (Open.Application app))) core.new result
        (string_bytes output.old) (string_bytes output.new) }
{
    if app.is_at_conflict() {
        return keep(alloc, app, &Outcome::Unanswered, line, made, output);
    }
    if core.events() >= EVENTS_MAX {
        app.is_committed();
        return Err(CallFault::HistoryFull);
    }
    match app.transaction() {
        Ok(txn) => commit(alloc, core, app, txn, line, made, output),
        Err(Fault::Refused(why)) => close(alloc, why, line, made, output),
        Err(Fault::OutOfMemory) => Err(CallFault::OutOfMemory),
    }
}

// Commits this transaction of an application that stands at its end.
fn commit<A: AllocHandle>(
    alloc: A,
    core: &mut Core<A>,
    app: Application<A>,
    txn: Txn<A>,
    line: &RunLine<A>,
    made: &mut String<A>,
    output: &mut String<A>,
) -> Result<Option<Open<A>>, CallFault>
    requires end { met app.applier ≡ None }
    requires ends { deed (Some (Open.Application app)) line.now.line ≡ EndApply app txn }
    ensures { Ran line.now (holding core.old (Some (Open.Application app))) core.new result
        (string_bytes output.old) (string_bytes output.new) }
{
    let ended = ended_line(line, app, txn);
    serve(alloc, core, None, &ended, &ended.line.command, made, output)
}

// The line that commits it, which is printed with its report.
fn ended_line<A: AllocHandle>(line: &RunLine<A>, app: Application<A>, txn: Txn<A>) -> RunLine<A>
    requires end { met app.applier ≡ None }
    ensures { result ≡ ended_line line.now app (batch_of txn) }
{
    let passed = app.passed();
    let report = app.into_report();
    RunLine {
        form: line.form,
        number: line.number,
        line: Line {
            worker: line.line.worker,
            command: Command::Commit(txn.into_batch()),
            show: Show::Decided(report, passed),
        },
    }
}
