//! The text of where an application stands.
ghost use Rattle.std.specs.Prelude.{◌≡◌, ◌++◌, IfOk, OnOk, string_bytes};
ghost use Rattle.std.specs.Option.{option_copied};
ghost use Rattle.cap_show.specs.ShowText.{change_text, patch_text};
ghost use Rattle.cap_script.specs.StopText.{change_in, conflict_text, next_change_text, stop_text};

use crate::row_text::get_text;
use crate::words::kind_word;
use cap_applier::{Applier, RowConflict};
use cap_changes::{Group, PatchGroup};
use cap_codec::Contents;
use cap_show::{ChangeText, GroupText, PatchText};
use cap_value::{AllocHandle, OutOfMemory};

/// The text of the conflict at which an application stands: the number of the change and the conflict's kind, the
/// change, and the row that is there. At the end `no conflict`.
pub fn print_stop<A: AllocHandle>(alloc: A, applier: &Applier<A>) -> Result<String<A>, OutOfMemory>
    ensures { IfOk result (λ text. string_bytes text ≡ stop_text applier.now) }
{
    match applier.conflict() {
        Some(conflict) => conflict_text(alloc, applier, conflict),
        None => String::from_str(alloc, "no conflict"),
    }
}

fn conflict_text<A: AllocHandle>(
    alloc: A,
    applier: &Applier<A>,
    conflict: &RowConflict<A>,
) -> Result<String<A>, OutOfMemory>
    ensures { IfOk result (λ text. string_bytes text ≡ conflict_text applier.now conflict.now) }
{
    let number = applier.number();
    let kind = kind_word(conflict.kind);
    let mut text = format!(in alloc; "conflict {number} {kind}\n")?;
    write_change(applier, &mut text)?;
    let row = get_text(alloc, Ok(conflict.row.as_ref()))?;
    text.push_str(row.as_str())?;
    Ok(text)
}

// Appends the change that comes next, behind the line of its group.
fn write_change<A: AllocHandle>(
    applier: &Applier<A>,
    out: &mut String<A>,
) -> Result<(), OutOfMemory>
    ensures { OnOk result (string_bytes out.new
        ≡ string_bytes out.old ++ next_change_text applier.now.blob applier.now.progress) }
{
    let (group, change) = (applier.group(), applier.change());
    match applier.blob() {
        Contents::Changes(list) => write_row_change(list.groups().get(group), change, out),
        Contents::Patches(list) => write_patch(list.groups().get(group), change, out),
    }
}

fn write_row_change<A: AllocHandle>(
    group: Option<&Group<A>>,
    change: usize,
    out: &mut String<A>,
) -> Result<(), OutOfMemory>
    ensures { OnOk result (string_bytes out.new
        ≡ string_bytes out.old ++ change_in change_text (option_copied group.entry) change) }
{
    let Some(group) = group else {
        return Ok(());
    };
    match group.changes().get(change) {
        Some(change) => {
            let head = GroupText::of(group.table(), group.schema());
            write!(out, "{head}{}", ChangeText(&change))
        }
        None => Ok(()),
    }
}

fn write_patch<A: AllocHandle>(
    group: Option<&PatchGroup<A>>,
    change: usize,
    out: &mut String<A>,
) -> Result<(), OutOfMemory>
    ensures { OnOk result (string_bytes out.new
        ≡ string_bytes out.old ++ change_in patch_text (option_copied group.entry) change) }
{
    let Some(group) = group else {
        return Ok(());
    };
    match group.changes().get(change) {
        Some(patch) => {
            let head = GroupText::of(group.table(), group.schema());
            write!(out, "{head}{}", PatchText(&patch))
        }
        None => Ok(()),
    }
}
