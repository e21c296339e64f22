//! Runs each line of an input as it is read.
ghost use Rattle.std.specs.Prelude.{◌≡◌, ◌++◌, [], Err, Some, IfErr, IfOk, OnOk, codes, decimal};
ghost use Rattle.std.specs.Prelude.{false};
ghost use Rattle.std.specs.Prelude.{string_bytes};
ghost use Rattle.std.specs.Io.KnownBytes.{Appends};
ghost use Rattle.cap_interpreter.specs.Lines.{Course, IsAt, on_a_line};
ghost use Rattle.cap_run.specs.Code.Shell.{HasAnswered, MatchEnd, MayEnd};
ghost use Rattle.cap_run.specs.Reads.{EndsReads};
ghost use Rattle.cap_run.specs.Run.{ending};
ghost use Rattle.cap_stream.specs.Writing.{AppendsFront};
ghost use Rattle.cap_run.specs.RunFault.{exit_status, is_read};
ghost use Rattle.cap_run.specs.Shell.{WritesShell, outputs};
ghost use Rattle.cap_run.specs.Writes.{EndsBoth, EndsWrites};
ghost use Rattle.cap_script.specs.FaultText.{fault_text};
ghost use Rattle.cap_script.specs.ReadLine.{HasFault, IsFound};

use crate::RunFault;
use crate::output::{write_ending, write_output};
use crate::unread::{ReadFault, Unread, next_line};
use cap_interpreter::Interpreter;
use cap_locked::CallFault;
use cap_replies::{ReplyForm, RunLine};
use cap_script::{Line, ScriptFault, print_fault, read_line};
use cap_stream::{CALLS_MAX, Sink, Source};
use cap_value::{AllocHandle, Fault};

/// Runs the lines from the reader on a new server, each as it is read, as `run_core` runs those of a workload.
/// The reply to each is written and flushed before the next line is read.
///
/// The fault of a line that spells no command within the limits, or is not UTF-8, is written to `faults`, and
/// the next line is read; an open transaction stays open. A line that begins with `@K` is run as any other.
/// Where a line has no reply, or memory runs out, the fault of that is written to `replies`, and the shell
/// ends.
pub fn run_shell<A: AllocHandle, R: Source, W: Sink, E: Sink>(
    alloc: A,
    reader: &mut R,
    replies: &mut W,
    faults: &mut E,
) -> Result<(), RunFault>
    // The shell does not end at a line that is refused.
    ensures status { IfErr result (λ fault. exit_status fault ≡ 3) }
    // When a failed read is reported, as far as the outcomes of the reads are known.
    ensures read_reported { EndsReads R.gave R.failed result reader.old reader.new }
    // When a failed write is reported, as far as the outcomes of the writes are known.
    ensures write_reported { EndsBoth W.went W.failed E.went E.failed result
        replies.old replies.new faults.old faults.new }
    // What is written is the text of a run of the lines that spell a command, whose history is legal, and of
    // each other line its fault, with its number.
    ensures written { WritesShell A (R.remaining reader.old) (R.remaining reader.new) result
        (outputs (W.contents replies.old) (E.contents faults.old))
        (outputs (W.contents replies.new) (E.contents faults.new)) }
{
    let mut interpreter = Interpreter::new(alloc);
    let mut unread = Unread::new(alloc);
    let mut reads = CALLS_MAX;
    let mut number = 0u64;
    loop {
        let found = match next_line(alloc, reader, &mut unread, &mut reads) {
            Ok(found) => found,
            Err(ReadFault::OutOfMemory) => return end(replies, CallFault::OutOfMemory),
            Err(ReadFault::Failed) => return Err(RunFault::Read),
        };
        let Some(line) = found else {
            return Ok(());
        };
        number += 1;
        let printed = match answer_line(alloc, &mut interpreter, number, line.as_slice()) {
            Ok(printed) => printed,
            Err(fault) => return end(replies, fault),
        };
        if let Err(fault) = write_printed(&printed, replies, faults) {
            return Err(fault);
        }
    }
}

// What is written for a line: its reply and its fault, each on a line of its own, or empty.
#[derive(Drop)]
struct Printed<A: AllocHandle> {
    reply: String<A>,
    fault: String<A>,
}

// Writes what is written for a line.
fn write_printed<A: AllocHandle, W: Sink, E: Sink>(
    printed: &Printed<A>,
    replies: &mut W,
    faults: &mut E,
) -> Result<(), RunFault>
    ensures ok { OnOk result (
        Appends (W.contents replies.old) (W.contents replies.new) (string_bytes printed.now.reply)
        × Appends (E.contents faults.old) (E.contents faults.new) (string_bytes printed.now.fault)) }
    ensures err { IfErr result (λ fault. (fault ≡ RunFault.Write)
        × AppendsFront (W.contents replies.old) (W.contents replies.new) (string_bytes printed.now.reply)
        × AppendsFront (E.contents faults.old) (E.contents faults.new) (string_bytes printed.now.fault)) }
    ensures write_reported { EndsBoth W.went W.failed E.went E.failed result
        replies.old replies.new faults.old faults.new }
{
    if let Err(fault) = write_output(replies, printed.reply.as_str().as_bytes()) {
        return Err(fault);
    }
    write_output(faults, printed.fault.as_str().as_bytes())
}

// Writes the fault at which the shell ends.
fn end<W: Sink>(replies: &mut W, fault: CallFault) -> Result<(), RunFault>
    ensures ended { OnOk result ⊥ }
    ensures written { IfErr result (λ why. MatchEnd why
        (λ f. (f ≡ fault) × Appends (W.contents replies.old) (W.contents replies.new) (ending ReplyForm.Text (Err fault)))
        (AppendsFront (W.contents replies.old) (W.contents replies.new) (ending ReplyForm.Text (Err fault)))) }
    ensures status { IfErr result (λ why. exit_status why ≡ 3) }
    ensures no_failed_read { IfErr result (λ why. is_read why ≡ false) }
    ensures write_reported { EndsWrites W.went W.failed result replies.old replies.new }
{
    match write_ending(ReplyForm::Text, Err(fault), replies) {
        Ok(()) => Err(RunFault::Call(fault)),
        Err(_) => Err(RunFault::Write),
    }
}

// Runs the line with this number.
fn answer_line<A: AllocHandle>(
    alloc: A,
    interpreter: &mut Interpreter<A>,
    number: u64,
    line: &[u8],
) -> Result<Printed<A>, CallFault>
    ensures answered { (course : Course A) → IsAt course interpreter.old → IfOk result (λ printed.
        HasAnswered number line.now course interpreter.new
        (string_bytes printed.reply) (string_bytes printed.fault)) }
    ensures ended { IfErr result (λ fault. MayEnd fault interpreter.old) }
{
    match str::from_utf8(line) {
        Ok(text) => answer_text(alloc, interpreter, number, text),
        Err(_) => printed_not_utf8(alloc, number),
    }
}

// Runs the line with this number and this text.
fn answer_text<A: AllocHandle>(
    alloc: A,
    interpreter: &mut Interpreter<A>,
    number: u64,
    text: &str,
) -> Result<Printed<A>, CallFault>
    ensures answered { (course : Course A) → IsAt course interpreter.old → IfOk result (λ printed.
        HasAnswered number text.now course interpreter.new
        (string_bytes printed.reply) (string_bytes printed.fault)) }
    ensures ended { IfErr result (λ fault. MayEnd fault interpreter.old) }
{
    match read_line(alloc, number, text) {
        Ok(Some(line)) => answer_command(alloc, interpreter, number, text, line),
        Ok(None) => Ok(nothing(alloc)),
        Err(fault) => answer_refused(alloc, interpreter, number, text, fault),
    }
}

// Runs a line that spells a command.
fn answer_command<A: AllocHandle>(
    alloc: A,
    interpreter: &mut Interpreter<A>,
    number: u64,
    text: &str,
    line: Line<A>,
) -> Result<Printed<A>, CallFault>
    requires found { IsFound (Some line) text.now }
    ensures answered { (course : Course A) → IsAt course interpreter.old → IfOk result (λ printed.
        HasAnswered number text.now course interpreter.new
        (string_bytes printed.reply) (string_bytes printed.fault)) }
    ensures ended { IfErr result (λ fault. MayEnd fault interpreter.old) }
{
    let line = RunLine {
        form: ReplyForm::Text,
        number,
        line,
    };
    let mut made = String::new(alloc);
    let mut reply = String::new(alloc);
    match interpreter.run(alloc, &line, &mut made, &mut reply) {
        Ok(()) => Ok(Printed {
            reply,
            fault: String::new(alloc),
        }),
        Err(fault) => Err(fault),
    }
}

// Prints the fault of a line.
fn answer_refused<A: AllocHandle>(
    alloc: A,
    interpreter: &Interpreter<A>,
    number: u64,
    text: &str,
    fault: Fault<ScriptFault>,
) -> Result<Printed<A>, CallFault>
    requires fault { HasFault A number fault text.now }
    ensures answered { (course : Course A) → IsAt course interpreter.now → IfOk result (λ printed.
        HasAnswered number text.now course interpreter.now
        (string_bytes printed.reply) (string_bytes printed.fault)) }
    ensures ended { IfErr result (λ fault. fault ≡ CallFault.OutOfMemory) }
{
    match fault {
        Fault::Refused(why) => printed_script_fault(alloc, why),
        Fault::OutOfMemory => Err(CallFault::OutOfMemory),
    }
}

// What is written for an ignored line.
fn nothing<A: AllocHandle>(alloc: A) -> Printed<A>
    ensures reply { string_bytes result.reply ≡ [] }
    ensures fault { string_bytes result.fault ≡ [] }
{
    Printed {
        reply: String::new(alloc),
        fault: String::new(alloc),
    }
}

// The fault of a line that is not UTF-8.
fn printed_not_utf8<A: AllocHandle>(alloc: A, number: u64) -> Result<Printed<A>, CallFault>
    ensures fault { IfOk result (λ printed. (string_bytes printed.reply ≡ []) × (string_bytes printed.fault
        ≡ on_a_line (codes "line " ++ (decimal number ++ codes ": not UTF-8")))) }
    ensures memory { IfErr result (λ fault. fault ≡ CallFault.OutOfMemory) }
{
    match format!(in alloc; "line {number}: not UTF-8") {
        Ok(text) => printed_fault(alloc, text),
        Err(_) => Err(CallFault::OutOfMemory),
    }
}

// The fault of a line that spells no command within the limits.
fn printed_script_fault<A: AllocHandle>(
    alloc: A,
    fault: ScriptFault,
) -> Result<Printed<A>, CallFault>
    ensures fault { IfOk result (λ printed. (string_bytes printed.reply ≡ [])
        × (string_bytes printed.fault ≡ on_a_line (fault_text fault))) }
    ensures memory { IfErr result (λ fault. fault ≡ CallFault.OutOfMemory) }
{
    match print_fault(alloc, fault) {
        Ok(text) => printed_fault(alloc, text),
        Err(_) => Err(CallFault::OutOfMemory),
    }
}

// A fault with this text.
fn printed_fault<A: AllocHandle>(alloc: A, text: String<A>) -> Result<Printed<A>, CallFault>
    ensures fault { IfOk result (λ printed. (string_bytes printed.reply ≡ [])
        × (string_bytes printed.fault ≡ on_a_line (string_bytes text))) }
    ensures memory { IfErr result (λ fault. fault ≡ CallFault.OutOfMemory) }
{
    let mut fault = text;
    match fault.push_str("\n") {
        Ok(()) => Ok(Printed {
            reply: String::new(alloc),
            fault,
        }),
        Err(_) => Err(CallFault::OutOfMemory),
    }
}
