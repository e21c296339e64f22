//! The text of replies.
ghost use Rattle.std.specs.Prelude.{◌≡◌, IfOk, OnOk, string_bytes, codes, decimal, ◌++◌};
ghost use Rattle.cap_changes.specs.Patch.{patch_list_of};
ghost use Rattle.cap_codec.specs.Changeset.{list_bytes_with};
ghost use Rattle.cap_codec.specs.Patchset.{patch_list_bytes_with};
ghost use Rattle.cap_script.specs.ReplyText.{accepted_detail, accepted_shown, accepted_text, applied_shown};
ghost use Rattle.cap_script.specs.ReplyText.{applied_text, buffer_text, decided_text, place_in};
ghost use Rattle.cap_dump.specs.Dump.{dump_bytes};
ghost use Rattle.cap_script.specs.ReplyText.{capture_text, dump_text, flag_text, hex_or_dash, reply_text};
ghost use Rattle.cap_script.specs.ReplyText.{report_text, written_text};

use crate::buffer_text::write_buffer;
use crate::list_text::{databases_text, on_word, sessions_text, tables_text, true_word};
use crate::refusal_text::RefusalText;
use crate::report_text::{write_report, write_report_in_blob};
use crate::row_text::snapshot_text;
use crate::{Detail, Line, Show};
use cap_applier::Numbering;
use cap_apply::Report;
use cap_codec::KeyFlags;
use cap_core::{Capture, Command, Dump, Reply, SessionCommand};
use cap_value::{AllocHandle, OutOfMemory};
use itoa::Buffer;

/// The text of the reply to a line's command, without a line feed at its end. It has several lines where it
/// prints rows or the report of an apply.
pub fn print_reply<A: AllocHandle>(
    alloc: A,
    line: &Line<A>,
    reply: &Reply<A>,
) -> Result<String<A>, OutOfMemory>
    ensures { IfOk result (λ text. string_bytes text ≡ reply_text line.now reply.now) }
{
    let mut text = String::new(alloc);
    write_reply(alloc, line, reply, &mut text)?;
    Ok(text)
}

/// Appends the text of the reply to `out`, as `print_reply` prints it.
#[tactic(auto, unfolding(crate::specs::ReplyText::reply_text))]
pub fn write_reply<A: AllocHandle>(
    alloc: A,
    line: &Line<A>,
    reply: &Reply<A>,
    out: &mut String<A>,
) -> Result<(), OutOfMemory>
    ensures { OnOk result (string_bytes out.new ≡ string_bytes out.old ++ reply_text line.now reply.now) }
{
    match reply {
        Reply::Done => out.push_str("ok"),
        Reply::Written { version } => write_written(alloc, &line.show, *version, out),
        Reply::Session(number) => write_numbered("session ", *number, out),
        Reply::Flag(flag) => out.push_str(flag_text(&line.command, *flag)),
        Reply::Applied { version, report } => {
            let text = applied_text(alloc, line, *version, report)?;
            out.push_str(text.as_str())
        }
        Reply::Snapshot(snapshot) => {
            let text = snapshot_text(alloc, &line.show, snapshot)?;
            out.push_str(text.as_str())
        }
        Reply::Capture(capture) => {
            let text = capture_text(alloc, &line.show, capture)?;
            out.push_str(text.as_str())
        }
        Reply::Databases(names) => {
            let text = databases_text(alloc, names)?;
            out.push_str(text.as_str())
        }
        Reply::Sessions(sessions) => {
            let text = sessions_text(alloc, sessions)?;
            out.push_str(text.as_str())
        }
        Reply::Tables(tables) => {
            let text = tables_text(alloc, tables)?;
            out.push_str(text.as_str())
        }
        Reply::Dump(dump) => {
            let text = dump_text(alloc, &line.show, dump)?;
            out.push_str(text.as_str())
        }
        Reply::Refused {
            at: Some(place),
            why,
        } => {
            let place = place_in(&line.show, *place);
            write!(out, "refused at {place}: {}", RefusalText(*why))
        }
        Reply::Refused { at: None, why } => write!(out, "refused: {}", RefusalText(*why)),
    }
}

/// The number of a refused operation or change; of what a filter accepts of a blob, its number in the blob.
pub fn place_in<A: AllocHandle>(show: &Show<A>, place: u64) -> u64
    ensures { result ≡ place_in show.now place }
{
    match show {
        Show::Accepted(_, numbering) => numbering.change(place),
        _ => place,
    }
}

// Appends the version that was made, and what an application that was committed so did.
fn write_written<A: AllocHandle>(
    alloc: A,
    show: &Show<A>,
    version: u64,
    out: &mut String<A>,
) -> Result<(), OutOfMemory>
    ensures { OnOk result (string_bytes out.new ≡ string_bytes out.old ++ written_text show.now version) }
{
    match show {
        Show::Decided(report, passed) => {
            let text = decided_counts(alloc, version, *passed, report)?;
            out.push_str(text.as_str())
        }
        _ => write_numbered("ok version ", version, out),
    }
}

// The counts of an application that stopped at each conflict.
fn decided_counts<A: AllocHandle>(
    alloc: A,
    version: u64,
    passed: Option<u64>,
    report: &Report<A>,
) -> Result<String<A>, OutOfMemory>
    ensures { IfOk result (λ text. string_bytes text ≡ decided_text version passed report.now) }
{
    match passed {
        Some(groups) => accepted_counts(alloc, version, groups, report),
        None => applied_counts(alloc, version, report),
    }
}

// Appends a number behind some words.
fn write_numbered<A: AllocHandle>(
    words: &str,
    number: u64,
    out: &mut String<A>,
) -> Result<(), OutOfMemory>
    ensures { OnOk result (string_bytes out.new
        ≡ string_bytes out.old ++ (words.now ++ decimal number)) }
{
    out.push_str(words)?;
    out.push_str(Buffer::new().format(number))
}

// The outcome of an apply.
fn applied_text<A: AllocHandle>(
    alloc: A,
    line: &Line<A>,
    version: u64,
    report: &Report<A>,
) -> Result<String<A>, OutOfMemory>
    ensures { IfOk result (λ text.
        string_bytes text ≡ applied_shown line.now.show line.now.command version report.now) }
{
    match &line.show {
        Show::Report => applied_with_report(alloc, version, report),
        Show::Buffer => applied_with_buffer(alloc, &line.command, version, report),
        Show::Accepted(detail, numbering) => {
            accepted_text(alloc, *detail, numbering, &line.command, version, report)
        }
        _ => applied_counts(alloc, version, report),
    }
}

// The outcome of an apply to the tables that a filter accepts.
fn accepted_text<A: AllocHandle>(
    alloc: A,
    detail: Detail,
    numbering: &Numbering<A>,
    command: &Command<A>,
    version: u64,
    report: &Report<A>,
) -> Result<String<A>, OutOfMemory>
    ensures { IfOk result (λ text. string_bytes text
        ≡ accepted_shown detail numbering.now command.now version report.now) }
{
    let groups = numbering.passed().groups;
    let mut text = accepted_counts(alloc, version, groups, report)?;
    write_accepted(alloc, detail, numbering, command, report, &mut text)?;
    Ok(text)
}

// Appends what is printed behind the counts.
fn write_accepted<A: AllocHandle>(
    alloc: A,
    detail: Detail,
    numbering: &Numbering<A>,
    command: &Command<A>,
    report: &Report<A>,
    out: &mut String<A>,
) -> Result<(), OutOfMemory>
    ensures { OnOk result (string_bytes out.new ≡ string_bytes out.old
        ++ accepted_detail detail numbering.now command.now report.now) }
{
    match detail {
        Detail::Counts => Ok(()),
        Detail::Report => write_report_in_blob(alloc, numbering, report, out),
        Detail::Buffer => write_buffer(alloc, command, report.conflicts(), out),
    }
}

fn accepted_counts<A: AllocHandle>(
    alloc: A,
    version: u64,
    groups: u64,
    report: &Report<A>,
) -> Result<String<A>, OutOfMemory>
    ensures { IfOk result (λ text. string_bytes text ≡ accepted_text version groups report.now) }
{
    let mut text = applied_counts(alloc, version, report)?;
    write_numbered(", passed ", groups, &mut text)?;
    Ok(text)
}

fn applied_with_report<A: AllocHandle>(
    alloc: A,
    version: u64,
    report: &Report<A>,
) -> Result<String<A>, OutOfMemory>
    ensures { IfOk result (λ text.
        string_bytes text ≡ applied_text version report.now ++ report_text report.now) }
{
    let mut text = applied_counts(alloc, version, report)?;
    write_report(alloc, report, &mut text)?;
    Ok(text)
}

fn applied_with_buffer<A: AllocHandle>(
    alloc: A,
    command: &Command<A>,
    version: u64,
    report: &Report<A>,
) -> Result<String<A>, OutOfMemory>
    ensures { IfOk result (λ text. string_bytes text
        ≡ applied_text version report.now ++ buffer_text command.now report.now.conflicts) }
{
    let mut text = applied_counts(alloc, version, report)?;
    write_buffer(alloc, command, report.conflicts(), &mut text)?;
    Ok(text)
}

fn applied_counts<A: AllocHandle>(
    alloc: A,
    version: u64,
    report: &Report<A>,
) -> Result<String<A>, OutOfMemory>
    ensures { IfOk result (λ text. string_bytes text ≡ applied_text version report.now) }
{
    let applied = report.applied();
    let omitted = report.omitted().len();
    let skipped = report.skipped().len();
    format!(in alloc;
        "ok version {version}, applied {applied}, omitted {omitted}, skipped {skipped}"
    )
}

// The value of a flag, or whether a session is empty.
fn flag_text<A: AllocHandle>(command: &Command<A>, flag: bool) -> &'static str
    ensures { result.now ≡ flag_text command.now flag }
{
    match command {
        Command::Session {
            command: SessionCommand::IsEmpty,
            ..
        } => true_word(flag),
        _ => on_word(flag),
    }
}

// The text of a capture.
fn capture_text<A: AllocHandle>(
    alloc: A,
    show: &Show<A>,
    capture: &Capture<A>,
) -> Result<String<A>, OutOfMemory>
    ensures { IfOk result (λ text. string_bytes text ≡ capture_text show.now capture.now.changes) }
{
    match show {
        Show::Changeset(flags) => changeset_text(alloc, capture, *flags),
        Show::Patchset(flags) => patchset_text(alloc, capture, *flags),
        _ => String::from_str(alloc, "ok"),
    }
}

fn changeset_text<A: AllocHandle>(
    alloc: A,
    capture: &Capture<A>,
    flags: KeyFlags,
) -> Result<String<A>, OutOfMemory>
    ensures { IfOk result (λ text.
        string_bytes text ≡ codes "changeset " ++ hex_or_dash (list_bytes_with flags capture.now.changes)) }
{
    let bytes = capture.changeset_with(alloc, flags)?;
    let digits = hex_or_dash(alloc, bytes.as_slice())?;
    format!(in alloc; "changeset {digits}")
}

fn patchset_text<A: AllocHandle>(
    alloc: A,
    capture: &Capture<A>,
    flags: KeyFlags,
) -> Result<String<A>, OutOfMemory>
    ensures { IfOk result (λ text. string_bytes text ≡ codes "patchset "
        ++ hex_or_dash (patch_list_bytes_with flags (patch_list_of capture.now.changes))) }
{
    let bytes = capture.patchset_with(alloc, flags)?;
    let digits = hex_or_dash(alloc, bytes.as_slice())?;
    format!(in alloc; "patchset {digits}")
}

// The text of a dump.
fn dump_text<A: AllocHandle>(
    alloc: A,
    show: &Show<A>,
    dump: &Dump<A>,
) -> Result<String<A>, OutOfMemory>
    ensures { IfOk result (λ text. string_bytes text ≡ dump_text show.now dump.now.database) }
{
    match show {
        Show::Changeset(flags) => whole_text(alloc, dump, *flags),
        _ => String::from_str(alloc, "ok"),
    }
}

fn whole_text<A: AllocHandle>(
    alloc: A,
    dump: &Dump<A>,
    flags: KeyFlags,
) -> Result<String<A>, OutOfMemory>
    ensures { IfOk result (λ text.
        string_bytes text ≡ codes "changeset " ++ hex_or_dash (dump_bytes flags dump.now.database)) }
{
    let bytes = dump.changeset_with(alloc, flags)?;
    let digits = hex_or_dash(alloc, bytes.as_slice())?;
    format!(in alloc; "changeset {digits}")
}

// Lower case hex digits, or `-` for no bytes.
pub(crate) fn hex_or_dash<A: AllocHandle>(alloc: A, bytes: &[u8]) -> Result<String<A>, OutOfMemory>
    ensures { IfOk result (λ text. string_bytes text ≡ hex_or_dash bytes.now) }
{
    if bytes.is_empty() {
        return String::from_str(alloc, "-");
    }
    hex::encode(alloc, bytes)
}
