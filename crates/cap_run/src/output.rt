//! Writes replies and faults.
ghost use Rattle.std.specs.Prelude.{◌≡◌, ◌++◌, ℕ, Err, List, [], OnOk, IfErr, decimal, string_bytes};
ghost use Rattle.std.specs.Io.KnownBytes.{Appends, Keeps};
ghost use Rattle.cap_run.specs.Run.{ending, fault_line};
ghost use Rattle.cap_run.specs.Writes.{EndsWrites};
ghost use Rattle.cap_stream.specs.Writing.{AppendsFront};

use crate::RunFault;
use cap_locked::CallFault;
use cap_replies::ReplyForm;
use cap_stream::Sink;
use cap_value::AllocHandle;
use itoa::Buffer;

// The length at which pending output is written.
const PIECE_LEN: usize = 8192;

// Writes all of the bytes. An interrupted write is made again.
fn write_whole<W: Sink>(writer: &mut W, bytes: &[u8]) -> Result<(), RunFault>
    ensures ok { OnOk result (Appends (W.contents writer.old) (W.contents writer.new) bytes.now) }
    ensures err { IfErr result (λ fault. (fault ≡ RunFault.Write)
        × AppendsFront (W.contents writer.old) (W.contents writer.new) bytes.now) }
    ensures write_reported { EndsWrites W.went W.failed result writer.old writer.new }
{
    cap_stream::write_whole(writer, bytes).map_err(|_| RunFault::Write)
}

// Writes all of the output and flushes the writer.
pub(crate) fn write_output<W: Sink>(writer: &mut W, output: &[u8]) -> Result<(), RunFault>
    ensures ok { OnOk result (Appends (W.contents writer.old) (W.contents writer.new) output.now) }
    ensures err { IfErr result (λ fault. (fault ≡ RunFault.Write)
        × AppendsFront (W.contents writer.old) (W.contents writer.new) output.now) }
    ensures write_reported { EndsWrites W.went W.failed result writer.old writer.new }
{
    write_whole(writer, output)?;
    flush(writer)
}

// Writes the pending output. Where a write fails it stays pending, though a prefix of it may be written.
pub(crate) fn write_pending<A: AllocHandle, W: Sink>(
    writer: &mut W,
    pending: &mut String<A>,
) -> Result<(), RunFault>
    ensures ok { OnOk result ((string_bytes pending.new ≡ [])
        × Appends (W.contents writer.old) (W.contents writer.new) (string_bytes pending.old)) }
    ensures err { IfErr result (λ fault. (fault ≡ RunFault.Write)
        × AppendsFront (W.contents writer.old) (W.contents writer.new) (string_bytes pending.old)) }
    ensures write_reported { EndsWrites W.went W.failed result writer.old writer.new }
{
    write_whole(writer, pending.as_str().as_bytes())?;
    pending.clear();
    Ok(())
}

// Writes the pending output, if it is as long as a piece.
pub(crate) fn write_long<A: AllocHandle, W: Sink>(
    writer: &mut W,
    pending: &mut String<A>,
) -> Result<(), RunFault>
    ensures ok { OnOk result ((front : List ℕ)
        × (string_bytes pending.old ≡ front ++ string_bytes pending.new)
        × Appends (W.contents writer.old) (W.contents writer.new) front) }
    ensures err { IfErr result (λ fault. (fault ≡ RunFault.Write)
        × AppendsFront (W.contents writer.old) (W.contents writer.new) (string_bytes pending.old)) }
    ensures write_reported { EndsWrites W.went W.failed result writer.old writer.new }
{
    if pending.len() < PIECE_LEN {
        return Ok(());
    }
    write_pending(writer, pending)
}

// Writes the fault at which the run ended, if any, and flushes the writer.
pub(crate) fn write_ending<W: Sink>(
    form: ReplyForm,
    outcome: Result<(), CallFault>,
    writer: &mut W,
) -> Result<(), RunFault>
    ensures ok { OnOk result (Appends (W.contents writer.old) (W.contents writer.new) (ending form outcome)) }
    ensures err { IfErr result (λ fault. (fault ≡ RunFault.Write)
        × AppendsFront (W.contents writer.old) (W.contents writer.new) (ending form outcome)) }
    ensures write_reported { EndsWrites W.went W.failed result writer.old writer.new }
{
    write_last_line(form, outcome, writer)?;
    flush(writer)
}

// Flushes the writer.
fn flush<W: Sink>(writer: &mut W) -> Result<(), RunFault>
    ensures bytes { Keeps (W.contents writer.old) (W.contents writer.new) }
    ensures err { IfErr result (λ fault. fault ≡ RunFault.Write) }
    ensures write_reported { EndsWrites W.went W.failed result writer.old writer.new }
{
    writer.flush_all().map_err(|_| RunFault::Write)
}

// Writes the fault at which the run ended, if any. It takes no memory.
fn write_last_line<W: Sink>(
    form: ReplyForm,
    outcome: Result<(), CallFault>,
    writer: &mut W,
) -> Result<(), RunFault>
    ensures ok { OnOk result (Appends (W.contents writer.old) (W.contents writer.new)
        (ending form outcome)) }
    ensures err { IfErr result (λ fault. (fault ≡ RunFault.Write)
        × AppendsFront (W.contents writer.old) (W.contents writer.new) (ending form outcome)) }
    ensures write_reported { EndsWrites W.went W.failed result writer.old writer.new }
{
    match outcome {
        Ok(()) => write_whole(writer, b""),
        Err(fault) => write_fault_line(form, fault, writer),
    }
}

// Writes a fault as a line of its own.
fn write_fault_line<W: Sink>(
    form: ReplyForm,
    fault: CallFault,
    writer: &mut W,
) -> Result<(), RunFault>
    ensures ok { OnOk result (Appends (W.contents writer.old) (W.contents writer.new)
        (fault_line form fault)) }
    ensures err { IfErr result (λ why. (why ≡ RunFault.Write)
        × AppendsFront (W.contents writer.old) (W.contents writer.new) (fault_line form fault)) }
    ensures write_reported { EndsWrites W.went W.failed result writer.old writer.new }
{
    match form {
        ReplyForm::Text => write_fault_text(fault, writer),
        ReplyForm::Json => write_fault_json(fault, writer),
    }
}

#[tactic(auto, unfolding(crate::specs::Run::call_fault_text))]
fn write_fault_text<W: Sink>(fault: CallFault, writer: &mut W) -> Result<(), RunFault>
    ensures ok { OnOk result (Appends (W.contents writer.old) (W.contents writer.new)
        (fault_line ReplyForm.Text fault)) }
    ensures err { IfErr result (λ why. (why ≡ RunFault.Write)
        × AppendsFront (W.contents writer.old) (W.contents writer.new) (fault_line ReplyForm.Text fault)) }
    ensures write_reported { EndsWrites W.went W.failed result writer.old writer.new }
{
    match fault {
        CallFault::OutOfMemory => write_whole(writer, b"refused for memory\n"),
        CallFault::HistoryFull => write_whole(writer, b"history full\n"),
        CallFault::Overtaken { front } => write_number(writer, b"overtaken ", front, b"\n"),
    }
}

#[tactic(auto, unfolding(crate::specs::Run::call_fault_text))]
fn write_fault_json<W: Sink>(fault: CallFault, writer: &mut W) -> Result<(), RunFault>
    ensures ok { OnOk result (Appends (W.contents writer.old) (W.contents writer.new)
        (fault_line ReplyForm.Json fault)) }
    ensures err { IfErr result (λ why. (why ≡ RunFault.Write)
        × AppendsFront (W.contents writer.old) (W.contents writer.new) (fault_line ReplyForm.Json fault)) }
    ensures write_reported { EndsWrites W.went W.failed result writer.old writer.new }
{
    match fault {
        CallFault::OutOfMemory => write_whole(writer, b"{\"fault\":\"refused for memory\"}\n"),
        CallFault::HistoryFull => write_whole(writer, b"{\"fault\":\"history full\"}\n"),
        CallFault::Overtaken { front } => {
            write_number(writer, b"{\"fault\":\"overtaken ", front, b"\"}\n")
        }
    }
}

// Writes a number between some bytes and others.
#[tactic(auto, using(crate::proofs::RunLemmas::front_more, crate::proofs::RunLemmas::front_sooner))]
fn write_number<W: Sink>(
    writer: &mut W,
    before: &[u8],
    number: u64,
    after: &[u8],
) -> Result<(), RunFault>
    ensures ok { OnOk result (Appends (W.contents writer.old) (W.contents writer.new)
        ((before.now ++ decimal number) ++ after.now)) }
    ensures err { IfErr result (λ fault. (fault ≡ RunFault.Write)
        × AppendsFront (W.contents writer.old) (W.contents writer.new)
        ((before.now ++ decimal number) ++ after.now)) }
    ensures write_reported { EndsWrites W.went W.failed result writer.old writer.new }
{
    let mut digits = Buffer::new();
    if let Err(_) = write_both(writer, before, digits.format(number).as_bytes()) {
        return Err(RunFault::Write);
    }
    if let Err(_) = write_whole(writer, after) {
        return Err(RunFault::Write);
    }
    Ok(())
}

// Writes some bytes and then others.
#[tactic(auto, using(crate::proofs::RunLemmas::front_more, crate::proofs::RunLemmas::front_sooner))]
fn write_both<W: Sink>(writer: &mut W, first: &[u8], second: &[u8]) -> Result<(), RunFault>
    ensures ok { OnOk result (Appends (W.contents writer.old) (W.contents writer.new)
        (first.now ++ second.now)) }
    ensures err { IfErr result (λ fault. (fault ≡ RunFault.Write)
        × AppendsFront (W.contents writer.old) (W.contents writer.new) (first.now ++ second.now)) }
    ensures write_reported { EndsWrites W.went W.failed result writer.old writer.new }
{
    if let Err(_) = write_whole(writer, first) {
        return Err(RunFault::Write);
    }
    if let Err(_) = write_whole(writer, second) {
        return Err(RunFault::Write);
    }
    Ok(())
}
