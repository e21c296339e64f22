//! The outcome of an apply, and refusals.
ghost use Rattle.std.specs.Prelude.{◌≡◌, ◌++◌, ◌∷◌, [], codes};
ghost use Rattle.std.specs.List.{flat_map};
ghost use Rattle.json.specs.Token as token;
ghost use Rattle.cap_applier.specs.Chosen.{in_blob};
ghost use Rattle.cap_replies.specs.ReplyJson as spec;
ghost use Rattle.cap_show.specs.Json.{Appends};

use crate::members::{write_key, write_kind, write_number, write_numbers, write_optional};
use cap_applier::Numbering;
use cap_apply::{Conflict, Report};
use cap_codec::{Contents, KeyFlags, write_changes_with};
use cap_core::Command;
use cap_rebase::buffer_of;
use cap_script::{Detail, Show, answer_word, kind_word, refusal_name};
use cap_show::write_text_member;
use cap_value::{AllocHandle, OutOfMemory, Refusal};
use json::Writer;

// Writes a refusal.
pub(crate) fn write_refused<A: AllocHandle>(
    writer: &mut Writer<A>,
    at: Option<u64>,
    why: Refusal,
) -> Result<(), OutOfMemory>
    ensures { Appends result writer.old writer.new (spec.refused at why) }
{
    write_kind(writer, "refused")?;
    write_optional(writer, "at", at)?;
    write_text_member(writer, "refusal", refusal_name(why))?;
    write_stale(writer, why)
}

// Writes a refusal of a step of a transaction, which has this number and name.
pub(crate) fn write_named_refusal<A: AllocHandle>(
    writer: &mut Writer<A>,
    name: &str,
) -> Result<(), OutOfMemory>
    ensures { Appends result writer.old writer.new (spec.named_refusal name.now) }
{
    write_kind(writer, "refused")?;
    write_text_member(writer, "refusal", name)
}

// Writes the versions of a stale batch, and the item that has changed.
fn write_stale<A: AllocHandle>(writer: &mut Writer<A>, why: Refusal) -> Result<(), OutOfMemory>
    ensures { Appends result writer.old writer.new (spec.stale_members why) }
{
    match why {
        Refusal::Stale { base, now, item } => {
            write_number(writer, "base", base)?;
            write_number(writer, "now", now)?;
            write_optional(writer, "item", item)
        }
        _ => Ok(()),
    }
}

// Writes a report, with the numbers in the whole blob.
pub(crate) fn write_report<A: AllocHandle>(
    alloc: A,
    writer: &mut Writer<A>,
    show: &Show<A>,
    report: &Report<A>,
) -> Result<(), OutOfMemory>
    ensures { Appends result writer.old writer.new (spec.report (spec.report_in show.now report.now)) }
{
    match show {
        Show::Accepted(_, numbering) => write_report_in_blob(alloc, writer, numbering, report),
        _ => write_own_report(writer, report),
    }
}

pub(crate) fn write_own_report<A: AllocHandle>(
    writer: &mut Writer<A>,
    report: &Report<A>,
) -> Result<(), OutOfMemory>
    ensures { Appends result writer.old writer.new (spec.report report.now) }
{
    write_parts(
        writer,
        report.applied(),
        report.conflicts(),
        report.omitted(),
        report.skipped(),
    )
}

// Writes the parts of a report.
fn write_parts<A: AllocHandle>(
    writer: &mut Writer<A>,
    applied: u64,
    conflicts: &[Conflict],
    omitted: &[u64],
    skipped: &[u64],
) -> Result<(), OutOfMemory>
    ensures { Appends result writer.old writer.new (spec.report (record {
      applied = applied;
      conflicts = conflicts.now;
      omitted = omitted.now;
      skipped = skipped.now;
    })) }
{
    write_number(writer, "applied", applied)?;
    write_conflicts(writer, conflicts)?;
    write_numbers(writer, "omitted", omitted)?;
    write_numbers(writer, "skipped", skipped)
}

// Writes the report of what a filter accepts of a blob, with the numbers in the blob.
fn write_report_in_blob<A: AllocHandle>(
    alloc: A,
    writer: &mut Writer<A>,
    numbering: &Numbering<A>,
    report: &Report<A>,
) -> Result<(), OutOfMemory>
    ensures { Appends result writer.old writer.new (spec.report (in_blob numbering.now report.now)) }
{
    let conflicts = numbering.conflicts(alloc, report.conflicts())?;
    let omitted = numbering.changes(alloc, report.omitted())?;
    let skipped = numbering.groups(alloc, report.skipped())?;
    write_parts(
        writer,
        report.applied(),
        conflicts.as_slice(),
        omitted.as_slice(),
        skipped.as_slice(),
    )
}

// Writes how many groups were passed over, where there is a filter.
pub(crate) fn write_passed<A: AllocHandle>(
    writer: &mut Writer<A>,
    show: &Show<A>,
) -> Result<(), OutOfMemory>
    ensures { Appends result writer.old writer.new (spec.passed_member show.now) }
{
    match show {
        Show::Accepted(_, numbering) => {
            let passed = numbering.passed().groups;
            write_number(writer, "passed", passed)
        }
        _ => Ok(()),
    }
}

#[tactic(auto, unfolding(crate::specs::ReplyJson::conflicts_member))]
fn write_conflicts<A: AllocHandle>(
    writer: &mut Writer<A>,
    conflicts: &[Conflict],
) -> Result<(), OutOfMemory>
    ensures { Appends result writer.old writer.new (spec.conflicts_member conflicts.now) }
{
    write_key(writer, "conflicts")?;
    write_conflict_array(writer, conflicts)
}

fn write_conflict_array<A: AllocHandle>(
    writer: &mut Writer<A>,
    conflicts: &[Conflict],
) -> Result<(), OutOfMemory>
    ensures { Appends result writer.old writer.new
        (token.begin_array ∷ (flat_map spec.conflict conflicts.now ++ token.end_array ∷ [])) }
{
    writer.begin_array()?;
    write_each_conflict(writer, conflicts)?;
    writer.end_array()
}

fn write_each_conflict<A: AllocHandle>(
    writer: &mut Writer<A>,
    conflicts: &[Conflict],
) -> Result<(), OutOfMemory>
    ensures { Appends result writer.old writer.new (flat_map spec.conflict conflicts.now) }
{
    for conflict in conflicts {
        write_conflict(writer, conflict)?;
    }
    Ok(())
}

#[tactic(auto, unfolding(crate::specs::ReplyJson::conflict))]
fn write_conflict<A: AllocHandle>(
    writer: &mut Writer<A>,
    conflict: &Conflict,
) -> Result<(), OutOfMemory>
    ensures { Appends result writer.old writer.new (spec.conflict conflict.now) }
{
    writer.begin_object()?;
    write_number(writer, "change", conflict.change)?;
    write_text_member(writer, "kind", kind_word(conflict.kind))?;
    write_text_member(writer, "answer", answer_word(conflict.answer))?;
    writer.end_object()
}

// Writes the buffer of the command, an apply that met these conflicts, where the line asks for it.
pub(crate) fn write_buffer<A: AllocHandle>(
    alloc: A,
    writer: &mut Writer<A>,
    show: &Show<A>,
    command: &Command<A>,
    conflicts: &[Conflict],
) -> Result<(), OutOfMemory>
    ensures { Appends result writer.old writer.new
        (spec.buffer_member show.now command.now conflicts.now) }
{
    match show {
        Show::Buffer => write_asked_buffer(alloc, writer, command, conflicts),
        Show::Accepted(Detail::Buffer, _) => write_asked_buffer(alloc, writer, command, conflicts),
        _ => Ok(()),
    }
}

fn write_asked_buffer<A: AllocHandle>(
    alloc: A,
    writer: &mut Writer<A>,
    command: &Command<A>,
    conflicts: &[Conflict],
) -> Result<(), OutOfMemory>
    ensures { Appends result writer.old writer.new (spec.asked_buffer command.now conflicts.now) }
{
    match command {
        Command::Apply { blob, .. } => {
            writer.key("buffer")?;
            write_buffer_of(alloc, writer, blob, conflicts)
        }
        _ => Ok(()),
    }
}

// Writes the buffer in hex digits, or null for a patchset, which has no buffer.
fn write_buffer_of<A: AllocHandle>(
    alloc: A,
    writer: &mut Writer<A>,
    blob: &Contents<A>,
    conflicts: &[Conflict],
) -> Result<(), OutOfMemory>
    ensures { Appends result writer.old writer.new (spec.buffer blob.now conflicts.now) }
{
    match blob {
        Contents::Changes(list) => {
            let buffer = buffer_of(alloc, list, conflicts)?;
            let bytes = write_changes_with(alloc, KeyFlags::Ones, &buffer)?;
            let digits = hex::encode(alloc, bytes.as_slice())?;
            writer.string(digits.as_str())
        }
        Contents::Patches(_) => writer.null(),
    }
}
