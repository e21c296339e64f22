//! The text of the report of an apply.
ghost use Rattle.std.specs.Prelude.{◌≡◌, ◌++◌, OnOk, string_bytes};
ghost use Rattle.std.specs.List.{flat_map};
ghost use Rattle.cap_applier.specs.Chosen.{in_blob};
ghost use Rattle.cap_script.specs.ReplyText.{conflict_text, number_text, report_text};

use crate::words::{answer_word, kind_word};
use cap_applier::Numbering;
use cap_apply::{Conflict, Report};
use cap_value::{AllocHandle, OutOfMemory};

// Appends the conflicts, the omitted changes and the skipped groups to `out`, each after a line feed.
pub(crate) fn write_report<A: AllocHandle>(
    alloc: A,
    report: &Report<A>,
    out: &mut String<A>,
) -> Result<(), OutOfMemory>
    ensures { OnOk result (string_bytes out.new ≡ string_bytes out.old ++ report_text report.now) }
{
    write_conflicts(alloc, report.conflicts(), out)?;
    write_numbers(alloc, "omitted", report.omitted(), out)?;
    write_numbers(alloc, "skipped", report.skipped(), out)
}

// The same of what a filter accepts of a blob, with the numbers in the blob.
pub(crate) fn write_report_in_blob<A: AllocHandle>(
    alloc: A,
    numbering: &Numbering<A>,
    report: &Report<A>,
    out: &mut String<A>,
) -> Result<(), OutOfMemory>
    ensures { OnOk result (string_bytes out.new
        ≡ string_bytes out.old ++ report_text (in_blob numbering.now report.now)) }
{
    let conflicts = numbering.conflicts(alloc, report.conflicts())?;
    write_conflicts(alloc, conflicts.as_slice(), out)?;
    let omitted = numbering.changes(alloc, report.omitted())?;
    write_numbers(alloc, "omitted", omitted.as_slice(), out)?;
    let skipped = numbering.groups(alloc, report.skipped())?;
    write_numbers(alloc, "skipped", skipped.as_slice(), out)
}

fn write_conflicts<A: AllocHandle>(
    alloc: A,
    conflicts: &[Conflict],
    out: &mut String<A>,
) -> Result<(), OutOfMemory>
    ensures { OnOk result (string_bytes out.new
        ≡ string_bytes out.old ++ flat_map conflict_text conflicts.now) }
{
    for conflict in conflicts {
        write_conflict(alloc, conflict, out)?;
    }
    Ok(())
}

fn write_conflict<A: AllocHandle>(
    alloc: A,
    conflict: &Conflict,
    out: &mut String<A>,
) -> Result<(), OutOfMemory>
    ensures { OnOk result (string_bytes out.new ≡ string_bytes out.old ++ conflict_text conflict.now) }
{
    let change = conflict.change;
    let kind = kind_word(conflict.kind);
    let answer = answer_word(conflict.answer);
    let line = format!(in alloc; "\nconflict {change} {kind} {answer}")?;
    out.push_str(line.as_str())
}

fn write_numbers<A: AllocHandle>(
    alloc: A,
    word: &str,
    numbers: &[u64],
    out: &mut String<A>,
) -> Result<(), OutOfMemory>
    ensures { OnOk result (string_bytes out.new
        ≡ string_bytes out.old ++ flat_map (number_text word.now) numbers.now) }
{
    for number in numbers {
        write_number(alloc, word, number, out)?;
    }
    Ok(())
}

fn write_number<A: AllocHandle>(
    alloc: A,
    word: &str,
    number: &u64,
    out: &mut String<A>,
) -> Result<(), OutOfMemory>
    ensures { OnOk result (string_bytes out.new ≡ string_bytes out.old ++ number_text word.now number.now) }
{
    let line = format!(in alloc; "\n{word} {number}")?;
    out.push_str(line.as_str())
}
