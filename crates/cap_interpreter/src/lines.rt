//! One line, where nothing is open and where a transaction is.
ghost use Rattle.std.specs.Prelude.{◌≡◌, ◌++◌, None, Some, Ok, Err, MatchResult, IfOk, IfErr, OnOk, OnErr};
ghost use Rattle.std.specs.Prelude.{string_bytes};
ghost use Rattle.cap_script.specs.declared.line.Show.{Show};
ghost use Rattle.cap_replies.specs.Outcomes.{outcome_text};
ghost use Rattle.cap_replies.specs.declared.outcome.Outcome.{Outcome};
ghost use Rattle.cap_interpreter.specs.Code.Runs.{Ran, holding};
ghost use Rattle.cap_interpreter.specs.Lines.{deed, on_a_line};
ghost use Rattle.cap_interpreter.specs.Lines.Deed.{Serve};
ghost use Rattle.cap_interpreter.specs.declared.held.Open.{Open};

use crate::applying::run_applying;
use crate::calls::{call, get, scan};
use crate::commands::{apply_each, begin, serve};
use crate::held::Open;
use crate::printed::print;
use cap_core::{Command, Core};
use cap_locked::CallFault;
use cap_replies::{Outcome, RunLine};
use cap_script::{Show, Step};
use cap_txn::{Answer, Txn};
use cap_value::{AllocHandle, OutOfMemory};

// Runs a line where nothing is open. The answer is what is open after it.
pub(crate) fn run_alone<A: AllocHandle>(
    alloc: A,
    core: &mut Core<A>,
    line: &RunLine<A>,
    made: &mut String<A>,
    output: &mut String<A>,
) -> Result<Option<Open<A>>, CallFault>
    ensures { Ran line.now (holding core.old None) core.new result
        (string_bytes output.old) (string_bytes output.new) }
{
    match &line.line.show {
        Show::Step(step) => step_alone(alloc, core, step, line, made, output),
        _ => serve_line(alloc, core, None, line, made, output),
    }
}

// Runs a step where nothing is open.
#[inline(never)]
fn step_alone<A: AllocHandle>(
    alloc: A,
    core: &mut Core<A>,
    step: &Step<A>,
    line: &RunLine<A>,
    made: &mut String<A>,
    output: &mut String<A>,
) -> Result<Option<Open<A>>, CallFault>
    requires step { line.now.line.show ≡ Show.Step step.now }
    ensures { Ran line.now (holding core.old None) core.new result
        (string_bytes output.old) (string_bytes output.new) }
{
    match step {
        Step::Begin => begin(alloc, core, line, made, output),
        Step::ApplyEach(blob, filter) => {
            apply_each(alloc, core, blob, filter, line, made, output)
        }
        Step::Answer(_) => tell(alloc, None, &Outcome::NoConflict, line, made, output),
        Step::Put(_) => tell(alloc, None, &Outcome::NoConflict, line, made, output),
        _ => tell(alloc, None, &Outcome::NoTransaction, line, made, output),
    }
}

// Runs a line where this is open. The answer is what is open after it.
#[inline(never)]
pub(crate) fn run_open<A: AllocHandle>(
    alloc: A,
    core: &mut Core<A>,
    held: Open<A>,
    line: &RunLine<A>,
    made: &mut String<A>,
    output: &mut String<A>,
) -> Result<Option<Open<A>>, CallFault>
    ensures { Ran line.now (holding core.old (Some held)) core.new result
        (string_bytes output.old) (string_bytes output.new) }
{
    match held {
        Open::Transaction(txn) => run_within(alloc, core, txn, line, made, output),
        Open::Application(app) => run_applying(alloc, core, app, line, made, output),
    }
}

// Runs a line where this transaction is open. The answer is what is open after it.
fn run_within<A: AllocHandle>(
    alloc: A,
    core: &mut Core<A>,
    txn: Txn<A>,
    line: &RunLine<A>,
    made: &mut String<A>,
    output: &mut String<A>,
) -> Result<Option<Open<A>>, CallFault>
    ensures { Ran line.now (holding core.old (Some (Open.Transaction txn))) core.new result
        (string_bytes output.old) (string_bytes output.new) }
{
    match &line.line.show {
        Show::Get(table, row) => {
            let mut txn = txn;
            let answer = get(&mut txn, table, row);
            tell_answer(alloc, txn, answer, line, made, output)
        }
        Show::Scan(table) => {
            let mut txn = txn;
            let answer = scan(&mut txn, table);
            tell_answer(alloc, txn, answer, line, made, output)
        }
        Show::Step(step) => step_within(alloc, core, txn, step, line, made, output),
        _ => serve_line(
            alloc,
            core,
            Some(Open::Transaction(txn)),
            line,
            made,
            output,
        ),
    }
}

// Runs a step where this transaction is open.
fn step_within<A: AllocHandle>(
    alloc: A,
    core: &mut Core<A>,
    txn: Txn<A>,
    step: &Step<A>,
    line: &RunLine<A>,
    made: &mut String<A>,
    output: &mut String<A>,
) -> Result<Option<Open<A>>, CallFault>
    requires step { line.now.line.show ≡ Show.Step step.now }
    ensures { Ran line.now (holding core.old (Some (Open.Transaction txn))) core.new result
        (string_bytes output.old) (string_bytes output.new) }
{
    match step {
        Step::Begin => keep(alloc, txn, &Outcome::InTransaction, line, made, output),
        Step::ApplyEach(_, _) => keep(alloc, txn, &Outcome::InTransaction, line, made, output),
        Step::Call(asked) => {
            let mut txn = txn;
            let answer = call(alloc, &mut txn, asked);
            tell_answer(alloc, txn, answer, line, made, output)
        }
        Step::Rollback => {
            txn.rollback();
            tell(alloc, None, &Outcome::RolledBack, line, made, output)
        }
        Step::End => {
            let batch = txn.into_batch();
            let command = Command::Commit(batch);
            serve(alloc, core, None, line, &command, made, output)
        }
        Step::Answer(_) => keep(alloc, txn, &Outcome::NoConflict, line, made, output),
        Step::Put(_) => keep(alloc, txn, &Outcome::NoConflict, line, made, output),
    }
}

// Prints what a line did that leaves the transaction as it is.
fn keep<A: AllocHandle>(
    alloc: A,
    txn: Txn<A>,
    outcome: &Outcome<A>,
    line: &RunLine<A>,
    made: &mut String<A>,
    output: &mut String<A>,
) -> Result<Option<Open<A>>, CallFault>
    ensures left { IfOk result (λ left. left ≡ Some (Open.Transaction txn)) }
    ensures text { OnOk result (string_bytes output.new
        ≡ string_bytes output.old ++ on_a_line (outcome_text line.now outcome.now)) }
    ensures memory { IfErr result (λ fault. fault ≡ CallFault.OutOfMemory) }
    ensures same { OnErr result (string_bytes output.new ≡ string_bytes output.old) }
{
    let held = Some(Open::Transaction(txn));
    tell(alloc, held, outcome, line, made, output)
}

// Carries out the command of a line that is no step. What is open stays so.
pub(crate) fn serve_line<A: AllocHandle>(
    alloc: A,
    core: &mut Core<A>,
    held: Option<Open<A>>,
    line: &RunLine<A>,
    made: &mut String<A>,
    output: &mut String<A>,
) -> Result<Option<Open<A>>, CallFault>
    requires serves { deed held line.now.line ≡ Serve line.now.line.command }
    ensures { Ran line.now (holding core.old held) core.new result
        (string_bytes output.old) (string_bytes output.new) }
{
    line.line.command.blob_fits();
    serve(alloc, core, held, line, &line.line.command, made, output)
}

// Prints what a line did that carries out no command. The answer is what is open after it, which is handed in.
pub(crate) fn tell<A: AllocHandle>(
    alloc: A,
    held: Option<Open<A>>,
    outcome: &Outcome<A>,
    line: &RunLine<A>,
    made: &mut String<A>,
    output: &mut String<A>,
) -> Result<Option<Open<A>>, CallFault>
    ensures left { IfOk result (λ left. left ≡ held) }
    ensures text { OnOk result (string_bytes output.new
        ≡ string_bytes output.old ++ on_a_line (outcome_text line.now outcome.now)) }
    ensures memory { IfErr result (λ fault. fault ≡ CallFault.OutOfMemory) }
    ensures same { OnErr result (string_bytes output.new ≡ string_bytes output.old) }
{
    match print(alloc, line, outcome, made, output) {
        Ok(()) => Ok(held),
        Err(_) => Err(CallFault::OutOfMemory),
    }
}

// Prints the answer to a call of the open transaction, which is this after it.
fn tell_answer<A: AllocHandle>(
    alloc: A,
    txn: Txn<A>,
    answer: Result<Answer<A>, OutOfMemory>,
    line: &RunLine<A>,
    made: &mut String<A>,
    output: &mut String<A>,
) -> Result<Option<Open<A>>, CallFault>
    ensures left { IfOk result (λ left. left ≡ Some (Open.Transaction txn)) }
    ensures text { OnOk result (MatchResult answer (λ told. string_bytes output.new
        ≡ string_bytes output.old ++ on_a_line (outcome_text line.now (Outcome.Answer told))) (λ _. ⊥)) }
    ensures memory { IfErr result (λ fault. fault ≡ CallFault.OutOfMemory) }
    ensures same { OnErr result (string_bytes output.new ≡ string_bytes output.old) }
{
    match answer {
        Ok(told) => keep(alloc, txn, &Outcome::Answer(told), line, made, output),
        Err(_) => Err(CallFault::OutOfMemory),
    }
}
