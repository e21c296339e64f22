//! Lines that carry out a command of the server.
ghost use Rattle.std.specs.Prelude.{◌≡◌, ◌≤◌, ◌++◌, ◌∷◌, List, [], Some, IfOk, IfErr, OnOk, OnErr};
ghost use Rattle.std.specs.Prelude.{string_bytes};
ghost use Rattle.cap_txn.specs.Transaction.{begin_traced};
ghost use Rattle.cap_core.specs.Answer.{IsLegal, answer, event_by, reply_of, snapshot_of, state};
ghost use Rattle.cap_core.specs.Past.{HasRoom};
ghost use Rattle.cap_core.specs.Transition.{next};
ghost use Rattle.cap_core.specs.declared.event.Event.{Event};
ghost use Rattle.cap_replies.specs.Printed.{HasRoomFor, IsMade, reply_text};
ghost use Rattle.cap_replies.specs.Outcomes.{outcome_text};
ghost use Rattle.cap_replies.specs.declared.outcome.Outcome.{Outcome};
ghost use Rattle.cap_core.specs.declared.command.Command.{Command};
ghost use Rattle.cap_replies.specs.Stops.{stop_text};
ghost use Rattle.cap_interpreter.specs.Application.{opened};
ghost use Rattle.cap_interpreter.specs.Code.Runs.{FaultIs};
ghost use Rattle.cap_interpreter.specs.Lines.{events_max, on_a_line};
ghost use Rattle.cap_interpreter.specs.declared.held.Open.{Open};

use crate::application::Application;
use crate::held::Open;
use crate::printed::{make, make_stop};
use cap_codec::Contents;
use cap_core::{Command, Core, EVENTS_MAX, Reply};
use cap_filter::TableFilter;
use cap_locked::CallFault;
use cap_replies::{Outcome, Printer, RunLine, append_made};
use cap_txn::Txn;
use cap_value::{AllocHandle, Fault, OutOfMemory};

// Carries out a command of the server. The reply is made in `made` and appended to `output`, as a line, before
// the command takes effect. The answer is what is open after it, which is handed in.
pub(crate) fn serve<A: AllocHandle>(
    alloc: A,
    core: &mut Core<A>,
    held: Option<Open<A>>,
    line: &RunLine<A>,
    command: &Command<A>,
    made: &mut String<A>,
    output: &mut String<A>,
) -> Result<Option<Open<A>>, CallFault>
    ensures served { (h : List (Event A)) → IsLegal h → state h ≡ core.old → OnOk result (
        (core.new ≡ state (h ++ event_by 0 command.now (reply_of h command.now) ∷ []))
        × (string_bytes output.new
        ≡ string_bytes output.old ++ on_a_line (reply_text line.now (reply_of h command.now)))) }
    ensures left { IfOk result (λ left. left ≡ held) }
    ensures room { OnOk result (HasRoom core.old.events) }
    ensures fault { IfErr result (λ fault. FaultIs fault (events_max ≤ core.old.events)) }
    ensures unchanged { OnErr result (core.new ≡ core.old) }
    ensures same { OnErr result (string_bytes output.new ≡ string_bytes output.old) }
{
    cap_core::laws::legal_histories_grow::<A>();
    if core.events() >= EVENTS_MAX {
        return Err(CallFault::HistoryFull);
    }
    match serve_with_room(alloc, core, line, command, made, output) {
        Ok(()) => Ok(held),
        Err(_) => Err(CallFault::OutOfMemory),
    }
}

// The same where the history has room.
fn serve_with_room<A: AllocHandle>(
    alloc: A,
    core: &mut Core<A>,
    line: &RunLine<A>,
    command: &Command<A>,
    made: &mut String<A>,
    output: &mut String<A>,
) -> Result<(), OutOfMemory>
    requires room { HasRoom core.old.events }
    ensures ok { OnOk result ((core.new ≡ next core.old command.now)
        × (string_bytes output.new ≡ string_bytes output.old
        ++ on_a_line (reply_text line.now (answer core.old command.now)))) }
    ensures err { OnErr result ((core.new ≡ core.old)
        × (string_bytes output.new ≡ string_bytes output.old)) }
{
    match step_printing(&alloc, core, line, command, made, output) {
        Ok(()) => {
            append_made(output, made);
            Ok(())
        }
        Err(_) => Err(OutOfMemory),
    }
}

// Carries out a command, with the hook that prints.
fn step_printing<A: AllocHandle>(
    alloc: &A,
    core: &mut Core<A>,
    line: &RunLine<A>,
    command: &Command<A>,
    made: &mut String<A>,
    output: &mut String<A>,
) -> Result<(), OutOfMemory>
    requires room { HasRoom core.old.events }
    ensures ok { OnOk result ((core.new ≡ next core.old command.now)
        × IsMade line.now (answer core.old command.now) made.new
        × HasRoomFor made.new output.new) }
    ensures err { OnErr result (core.new ≡ core.old) }
    ensures same { string_bytes output.new ≡ string_bytes output.old }
{
    let mut printer = Printer {
        alloc,
        line,
        made,
        output,
    };
    match core.step(command, &mut printer) {
        Ok(_) => Ok(()),
        Err(Fault::OutOfMemory) => Err(OutOfMemory),
        Err(Fault::Refused(why)) => Err(why),
    }
}

// Reads a snapshot of the tables, and begins a transaction on it.
pub(crate) fn begin<A: AllocHandle>(
    alloc: A,
    core: &mut Core<A>,
    line: &RunLine<A>,
    made: &mut String<A>,
    output: &mut String<A>,
) -> Result<Option<Open<A>>, CallFault>
    ensures served { (h : List (Event A)) → IsLegal h → state h ≡ core.old → OnOk result (
        (core.new ≡ state (h ++ event_by 0 Command.Read (reply_of h Command.Read) ∷ []))
        × (string_bytes output.new
        ≡ string_bytes output.old ++ on_a_line (outcome_text line.now Outcome.Begun))) }
    ensures left { IfOk result (λ left. left ≡ Some (Open.Transaction (begin_traced (snapshot_of core.old)))) }
    ensures room { OnOk result (HasRoom core.old.events) }
    ensures fault { IfErr result (λ fault. FaultIs fault (events_max ≤ core.old.events)) }
    ensures unchanged { OnErr result (core.new ≡ core.old) }
    ensures same { OnErr result (string_bytes output.new ≡ string_bytes output.old) }
{
    cap_core::laws::legal_histories_grow::<A>();
    if core.events() >= EVENTS_MAX {
        return Err(CallFault::HistoryFull);
    }
    match begin_with_room(alloc, core, line, made, output) {
        Ok(txn) => Ok(Some(Open::Transaction(txn))),
        Err(_) => Err(CallFault::OutOfMemory),
    }
}

// The same where the history has room. All memory is found before the server changes.
fn begin_with_room<A: AllocHandle>(
    alloc: A,
    core: &mut Core<A>,
    line: &RunLine<A>,
    made: &mut String<A>,
    output: &mut String<A>,
) -> Result<Txn<A>, OutOfMemory>
    requires room { HasRoom core.old.events }
    ensures begun { IfOk result (λ txn. txn ≡ begin_traced (snapshot_of core.old)) }
    ensures core { OnOk result (core.new ≡ next core.old Command.Read) }
    ensures text { OnOk result (string_bytes output.new
        ≡ string_bytes output.old ++ on_a_line (outcome_text line.now Outcome.Begun)) }
    ensures err { OnErr result ((core.new ≡ core.old)
        × (string_bytes output.new ≡ string_bytes output.old)) }
{
    let (read, reply) = core.prepare(&Command::Read)?;
    let Reply::Snapshot(snapshot) = reply else {
        unreachable!()
    };
    let txn = Txn::begin(alloc, &snapshot)?;
    make(alloc, line, &Outcome::Begun, made, output)?;
    append_made(output, made);
    *core = read;
    Ok(txn)
}

// Reads a snapshot of the tables, and opens an application of a blob on it.
pub(crate) fn apply_each<A: AllocHandle>(
    alloc: A,
    core: &mut Core<A>,
    blob: &Contents<A>,
    filter: &Option<TableFilter<A>>,
    line: &RunLine<A>,
    made: &mut String<A>,
    output: &mut String<A>,
) -> Result<Option<Open<A>>, CallFault>
    ensures served { (h : List (Event A)) → IsLegal h → state h ≡ core.old → OnOk result (
        (core.new ≡ state (h ++ event_by 0 Command.Read (reply_of h Command.Read) ∷ []))
        × (string_bytes output.new ≡ string_bytes output.old ++ on_a_line (stop_text line.now
        (opened (snapshot_of (state h)) blob.now filter.now).applier))) }
    ensures left { IfOk result (λ left. left ≡ Some (Open.Application
        (opened (snapshot_of core.old) blob.now filter.now))) }
    ensures room { OnOk result (HasRoom core.old.events) }
    ensures fault { IfErr result (λ fault. FaultIs fault (events_max ≤ core.old.events)) }
    ensures unchanged { OnErr result (core.new ≡ core.old) }
    ensures same { OnErr result (string_bytes output.new ≡ string_bytes output.old) }
{
    cap_core::laws::legal_histories_grow::<A>();
    if core.events() >= EVENTS_MAX {
        return Err(CallFault::HistoryFull);
    }
    match apply_each_with_room(alloc, core, blob, filter, line, made, output) {
        Ok(app) => Ok(Some(Open::Application(app))),
        Err(_) => Err(CallFault::OutOfMemory),
    }
}

// The same where the history has room. All memory is found before the server changes.
fn apply_each_with_room<A: AllocHandle>(
    alloc: A,
    core: &mut Core<A>,
    blob: &Contents<A>,
    filter: &Option<TableFilter<A>>,
    line: &RunLine<A>,
    made: &mut String<A>,
    output: &mut String<A>,
) -> Result<Application<A>, OutOfMemory>
    requires room { HasRoom core.old.events }
    ensures opened { IfOk result (λ app.
        app ≡ opened (snapshot_of core.old) blob.now filter.now) }
    ensures core { OnOk result (core.new ≡ next core.old Command.Read) }
    ensures text { OnOk result (string_bytes output.new ≡ string_bytes output.old ++ on_a_line (stop_text line.now
        (opened (snapshot_of core.old) blob.now filter.now).applier)) }
    ensures err { OnErr result ((core.new ≡ core.old)
        × (string_bytes output.new ≡ string_bytes output.old)) }
{
    let (next, reply) = core.prepare(&Command::Read)?;
    let Reply::Snapshot(snapshot) = reply else {
        unreachable!()
    };
    let app = Application::begin(alloc, snapshot, blob, filter)?;
    make_stop(alloc, line, app.applier(), made, output)?;
    append_made(output, made);
    *core = next;
    Ok(app)
}
