//! Printing what a line did.
ghost use Rattle.std.specs.Prelude.{◌≡◌, ◌++◌, [], OnOk, OnErr, string_bytes};
ghost use Rattle.cap_replies.specs.Outcomes.{outcome_text};
ghost use Rattle.cap_core.specs.Outcome.{change_refused};
ghost use Rattle.cap_core.specs.declared.reply.Reply.{Reply};
ghost use Rattle.cap_replies.specs.Printed.{HasRoomFor, reply_text};
ghost use Rattle.cap_replies.specs.Stops.{stop_text};
ghost use Rattle.cap_interpreter.specs.Lines.{on_a_line};

use cap_applier::Applier;
use cap_core::Reply;
use cap_replies::{Outcome, RunLine, append_made, write_outcome, write_run_reply, write_stop};
use cap_value::{AllocHandle, OutOfMemory, Refusal};

// Makes the text of an outcome, with a line feed, and reserves room for it in the output.
pub(crate) fn make<A: AllocHandle>(
    alloc: A,
    line: &RunLine<A>,
    outcome: &Outcome<A>,
    made: &mut String<A>,
    output: &mut String<A>,
) -> Result<(), OutOfMemory>
    ensures made { OnOk result (string_bytes made.new ≡ on_a_line (outcome_text line.now outcome.now)) }
    ensures room { OnOk result (HasRoomFor made.new output.new) }
    ensures same { string_bytes output.new ≡ string_bytes output.old }
{
    begin_line(made);
    write_outcome(alloc, line, outcome, made)?;
    end_line(made, output)
}

// Makes the text of where an application stands, in the same way.
pub(crate) fn make_stop<A: AllocHandle>(
    alloc: A,
    line: &RunLine<A>,
    applier: &Applier<A>,
    made: &mut String<A>,
    output: &mut String<A>,
) -> Result<(), OutOfMemory>
    ensures made { OnOk result (string_bytes made.new ≡ on_a_line (stop_text line.now applier.now)) }
    ensures room { OnOk result (HasRoomFor made.new output.new) }
    ensures same { string_bytes output.new ≡ string_bytes output.old }
{
    begin_line(made);
    write_stop(alloc, line, applier, made)?;
    end_line(made, output)
}

// Makes the text of a refusal, in the same way.
fn make_refusal<A: AllocHandle>(
    alloc: A,
    line: &RunLine<A>,
    why: Refusal,
    made: &mut String<A>,
    output: &mut String<A>,
) -> Result<(), OutOfMemory>
    ensures made { OnOk result (string_bytes made.new
        ≡ on_a_line (reply_text line.now (Reply.Refused (change_refused why) why))) }
    ensures room { OnOk result (HasRoomFor made.new output.new) }
    ensures same { string_bytes output.new ≡ string_bytes output.old }
{
    begin_line(made);
    let at = change_refused(why);
    write_run_reply(alloc, line, &Reply::Refused { at, why }, made)?;
    end_line(made, output)
}

// The number of the change at which an application was refused.
fn change_refused(why: Refusal) -> Option<u64>
    ensures { result ≡ change_refused why }
{
    match why {
        Refusal::Aborted { at } => Some(at),
        Refusal::Misuse { at } => Some(at),
        _ => None,
    }
}

// Begins a line.
fn begin_line<A: AllocHandle>(made: &mut String<A>)
    ensures { string_bytes made.new ≡ [] }
{
    made.clear();
}

// Ends the line that is made, and reserves room for it in the output.
fn end_line<A: AllocHandle>(made: &mut String<A>, output: &mut String<A>) -> Result<(), OutOfMemory>
    ensures made { OnOk result (string_bytes made.new ≡ on_a_line (string_bytes made.old)) }
    ensures room { OnOk result (HasRoomFor made.new output.new) }
    ensures same { string_bytes output.new ≡ string_bytes output.old }
{
    made.push_str("\n")?;
    output.reserve(made.as_bytes().len())
}

// Prints an outcome, as a line.
pub(crate) fn print<A: AllocHandle>(
    alloc: A,
    line: &RunLine<A>,
    outcome: &Outcome<A>,
    made: &mut String<A>,
    output: &mut String<A>,
) -> Result<(), OutOfMemory>
    ensures text { OnOk result (string_bytes output.new
        ≡ string_bytes output.old ++ on_a_line (outcome_text line.now outcome.now)) }
    ensures same { OnErr result (string_bytes output.new ≡ string_bytes output.old) }
{
    match make(alloc, line, outcome, made, output) {
        Ok(()) => {
            append_made(output, made);
            Ok(())
        }
        Err(_) => Err(OutOfMemory),
    }
}

// Prints where an application stands, as a line.
pub(crate) fn print_stop<A: AllocHandle>(
    alloc: A,
    line: &RunLine<A>,
    applier: &Applier<A>,
    made: &mut String<A>,
    output: &mut String<A>,
) -> Result<(), OutOfMemory>
    ensures text { OnOk result (string_bytes output.new
        ≡ string_bytes output.old ++ on_a_line (stop_text line.now applier.now)) }
    ensures same { OnErr result (string_bytes output.new ≡ string_bytes output.old) }
{
    let Ok(()) = make_stop(alloc, line, applier, made, output) else {
        return Err(OutOfMemory);
    };
    append_made(output, made);
    Ok(())
}

// Prints a refusal, as a line.
pub(crate) fn print_refusal<A: AllocHandle>(
    alloc: A,
    line: &RunLine<A>,
    why: Refusal,
    made: &mut String<A>,
    output: &mut String<A>,
) -> Result<(), OutOfMemory>
    ensures text { OnOk result (string_bytes output.new ≡ string_bytes output.old
        ++ on_a_line (reply_text line.now (Reply.Refused (change_refused why) why))) }
    ensures same { OnErr result (string_bytes output.new ≡ string_bytes output.old) }
{
    let Ok(()) = make_refusal(alloc, line, why, made, output) else {
        return Err(OutOfMemory);
    };
    append_made(output, made);
    Ok(())
}
