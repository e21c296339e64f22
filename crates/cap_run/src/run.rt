//! Runs a workload on one thread.
ghost use Rattle.std.specs.Prelude.{◌≡◌, ◌⊎◌, ◌<◌, ◌≤◌, List, [], IfSome, IfOk, IfErr, MatchResult, OnErr};
ghost use Rattle.std.specs.Prelude.{false, length, true, IsErrAnd, IsUtf8, string_bytes};
ghost use Rattle.cap_core.specs.Past.{HasRoom};
ghost use Rattle.cap_interpreter.specs.Lines.{events_max};
ghost use Rattle.cap_run.specs.Code.Run.{HaveEnded, MayEnd, RunsNext};
ghost use Rattle.cap_run.specs.Run.{BeginsRun, Writes, WritesInput, run_outcome};
ghost use Rattle.cap_run.specs.Reads.{EndsReads};
ghost use Rattle.cap_run.specs.RunFault.{exit_status, is_read, is_script, IsNoWorkload, IsOfText, IsUnread};
ghost use Rattle.cap_run.specs.RunFault.{IsUnspelled};
ghost use Rattle.cap_run.specs.Writes.{EndsWrites};
ghost use Rattle.cap_script.specs.FirstRefused.{SpellsWithin};
ghost use Rattle.cap_replies.specs.Lines.{SpellsLines, SpellsRun, all_lines};
ghost use Rattle.cap_replies.specs.declared.run_line.ReplyForm.{ReplyForm};
ghost use Rattle.cap_replies.specs.declared.run_line.RunLine.{RunLine};
ghost use Rattle.cap_locked.specs.Fault.{MatchCallFault};

use crate::RunFault;
use crate::input::read_whole;
use crate::output::{write_ending, write_long, write_pending};
use cap_core::EVENTS_MAX;
use cap_interpreter::Interpreter;
use cap_locked::CallFault;
use cap_replies::{ReplyForm, RunLine, RunLines};
use cap_stream::{Sink, Source};
use cap_value::{AllocHandle, Fault};

/// Runs the workload from the reader on a new server, one line after the other, and writes the replies. A
/// transaction may go over several lines, with lines of others between them.
///
/// The whole text is parsed before anything runs. The first commands of a short text are held until they run,
/// as `Lines` of `cap_script` has it; each other line is parsed again when it runs. Where a line has no reply, or
/// memory runs out, the replies before it are written, then its fault, and the run ends. A line that is refused
/// for memory has not run.
///
/// The contracts say exactly which input is refused as not UTF-8, where it is known what the reader gives. A
/// failed read and out of memory may come before any other answer. They say which other texts are refused,
/// and at which line; the offset within it is tested. The contracts determine the whole output, for writers
/// whose content is known.
pub fn run_core<A: AllocHandle, R: Source, W: Sink>(
    alloc: A,
    form: ReplyForm,
    reader: &mut R,
    writer: &mut W,
) -> Result<(), RunFault>
    // Exactly the input that is not UTF-8 is refused as such, where it is known what the reader gives.
    ensures not_utf8 { IfSome (R.remaining reader.old) (λ given. ¬ (IsUtf8 given)
        → IsErrAnd result (λ fault. (fault ≡ RunFault.NotUtf8) ⊎ IsUnread fault)) }
    ensures only_not_utf8 { IfSome (R.remaining reader.old) (λ given.
        result ≡ Err RunFault.NotUtf8 → ¬ (IsUtf8 given)) }

    // A text that is refused is refused at its first line that spells no command within the limits, and no
    // text that spells lines within the limits is. Every other text is, but for a failed read and out of
    // memory.
    ensures refused { IfSome (R.remaining reader.old)
        (λ given. IfErr result (λ fault. IsOfText A fault given)) }
    ensures accepted { IfSome (R.remaining reader.old) (λ given. SpellsWithin A given
        → IfErr result (λ fault. is_script fault ≡ false)) }
    ensures no_lines { IfSome (R.remaining reader.old) (λ given. ¬ (SpellsWithin A given)
        → IsErrAnd result IsNoWorkload) }

    // When a failed read is reported, as far as the outcomes of the reads are known.
    ensures read_reported { EndsReads R.gave R.failed result reader.old reader.new }

    // When a failed write is reported, as far as the outcomes of the writes are known.
    ensures write_reported { EndsWrites W.went W.failed result writer.old writer.new }

    // Nothing is written where the input is refused.
    ensures silent { IfErr result (λ fault. exit_status fault ≡ 1 → writer.new ≡ writer.old) }

    // The output is the replies to the lines that the input spells, one after the other up to the end of the
    // run, whose history is legal.
    ensures written { WritesInput A form (R.remaining reader.old) result
        (W.contents writer.old) (W.contents writer.new) }
{
    let text = read_text(alloc, reader)?;
    let mut lines = parse_lines(alloc, form, text.as_str())?;
    run_lines(alloc, form, &mut lines, writer)
}

// Reads the text. Whether the bytes are UTF-8 is checked without memory.
pub(crate) fn read_text<A: AllocHandle, R: Source>(
    alloc: A,
    reader: &mut R,
) -> Result<String<A>, RunFault>
    ensures whole { IfOk result (λ text.
        IfSome (R.remaining reader.old) (λ given. string_bytes text ≡ given)) }
    ensures only_not_utf8 { IfSome (R.remaining reader.old) (λ given.
        result ≡ Err RunFault.NotUtf8 → ¬ (IsUtf8 given)) }
    ensures unread { IfErr result (λ fault. (fault ≡ RunFault.NotUtf8) ⊎ IsUnread fault) }
    ensures read_reported { EndsReads R.gave R.failed result reader.old reader.new }
{
    text_of(read_whole(alloc, reader)?)
}

// The text with these bytes, or that they are not UTF-8.
fn text_of<A: AllocHandle>(bytes: Vec<u8, A>) -> Result<String<A>, RunFault>
    ensures text { IfOk result (λ text. string_bytes text ≡ bytes.items) }
    ensures only_not_utf8 { IfErr result (λ fault. (fault ≡ RunFault.NotUtf8) × (¬ (IsUtf8 bytes.items))) }
{
    String::from_utf8(bytes).map_err(|_| RunFault::NotUtf8)
}

// The lines of a workload's text, after all of it is parsed once.
pub(crate) fn parse_lines<A: AllocHandle>(
    alloc: A,
    form: ReplyForm,
    text: &str,
) -> Result<RunLines<'_, A>, RunFault>
    ensures whole { IfOk result (λ lines. lines ≡ all_lines form text.now) }
    ensures spelled { IfOk result (λ lines. (spelled : List (RunLine A))
        × SpellsLines form spelled text.now) }
    ensures within { IfOk result (λ lines. SpellsWithin A text.now) }
    ensures early { IfErr result IsUnspelled }
    ensures refused { IfErr result (λ fault. IsOfText A fault text.now) }
    ensures accepted { IfErr result (λ fault. SpellsWithin A text.now → is_script fault ≡ false) }
{
    match RunLines::new(alloc, form, text) {
        Ok(lines) => Ok(lines),
        Err(Fault::Refused(fault)) => Err(RunFault::Script(fault)),
        Err(Fault::OutOfMemory) => Err(RunFault::OutOfMemory),
    }
}

// Runs the lines on a new server, and writes their replies.
fn run_lines<A: AllocHandle, W: Sink>(
    alloc: A,
    form: ReplyForm,
    lines: &mut RunLines<'_, A>,
    writer: &mut W,
) -> Result<(), RunFault>
    ensures writes { (spelled : List (RunLine A)) → SpellsRun spelled lines.old
        → Writes form spelled result (W.contents writer.old) (W.contents writer.new) }
    ensures status { IfErr result (λ fault. exit_status fault ≡ 3) }
    ensures no_failed_read { IfErr result (λ fault. is_read fault ≡ false) }
    ensures write_reported { EndsWrites W.went W.failed result writer.old writer.new }
{
    let mut pending = String::new(alloc);
    let outcome = write_replies(alloc, lines, writer, &mut pending)?;
    write_pending(writer, &mut pending)?;
    write_ending(form, outcome, writer)?;
    run_outcome(outcome)
}

// The outcome of a run whose lines ended so.
pub(crate) fn run_outcome(outcome: Result<(), CallFault>) -> Result<(), RunFault>
    ensures same { result ≡ run_outcome outcome }
    ensures status { IfErr result (λ fault. exit_status fault ≡ 3) }
    ensures no_failed_read { IfErr result (λ fault. is_read fault ≡ false) }
{
    outcome.map_err(RunFault::Call)
}

// Writes the replies to the lines, except the last ones, which are left in `pending`. The inner fault is that
// of the line at which the run ended.
fn write_replies<A: AllocHandle, W: Sink>(
    alloc: A,
    lines: &mut RunLines<'_, A>,
    writer: &mut W,
    pending: &mut String<A>,
) -> Result<Result<(), CallFault>, RunFault>
    requires { string_bytes pending.old ≡ [] }
    ensures ok { (spelled : List (RunLine A)) → SpellsRun spelled lines.old → IfOk result (λ ended.
        HaveEnded spelled ended (string_bytes pending.new) (W.contents writer.old) (W.contents writer.new)) }
    ensures err { (form : ReplyForm) → (spelled : List (RunLine A)) → SpellsRun spelled lines.old
        → IfErr result (λ fault. BeginsRun form spelled (W.contents writer.old) (W.contents writer.new)) }
    ensures write { IfErr result (λ fault. fault ≡ RunFault.Write) }
    ensures write_reported { EndsWrites W.went W.failed result writer.old writer.new }
{
    let mut interpreter = Interpreter::new(alloc);
    let mut made = String::new(alloc);
    loop {
        match run_next(alloc, &mut interpreter, lines, &mut made, pending) {
            Ok(true) => {}
            Ok(false) => return Ok(Ok(())),
            Err(fault) => return Ok(Err(fault)),
        }
        write_long(writer, pending)?;
    }
}

// Runs the next line, and appends its reply to `pending`. False behind the last line.
fn run_next<A: AllocHandle>(
    alloc: A,
    interpreter: &mut Interpreter<A>,
    lines: &mut RunLines<'_, A>,
    made: &mut String<A>,
    pending: &mut String<A>,
) -> Result<bool, CallFault>
    ensures next { (spelled : List (RunLine A)) → SpellsRun spelled lines.old → MatchResult result
        (λ found. RunsNext found spelled lines.new interpreter.old interpreter.new
        (string_bytes pending.old) (string_bytes pending.new))
        (λ fault. MayEnd fault spelled interpreter.old) }
    ensures same { OnErr result (string_bytes pending.new ≡ string_bytes pending.old) }
    ensures left { IfOk result (λ found. found ≡ true → length lines.new.text < length lines.old.text) }
{
    let line = match lines.next_line() {
        Ok(Some(line)) => line,
        Ok(None) => return Ok(false),
        Err(_) => return Err(line_fault(interpreter)),
    };
    match interpreter.run(alloc, &line, made, pending) {
        Ok(()) => Ok(true),
        Err(fault) => Err(fault),
    }
}

// The fault of a line that is out of memory. A full history comes first, and no call is overtaken.
fn line_fault<A: AllocHandle>(interpreter: &Interpreter<A>) -> CallFault
    ensures { MatchCallFault result (HasRoom interpreter.now.core.events) (λ _. ⊥)
        (events_max ≤ interpreter.now.core.events) }
{
    if interpreter.events() >= EVENTS_MAX {
        CallFault::HistoryFull
    } else {
        CallFault::OutOfMemory
    }
}
