//! Prints changesets and patchsets.
ghost use Rattle.std.specs.Prelude.{◌≡◌, ℕ, List, IfOk, OnOk};
ghost use Rattle.std.specs.Io.KnownBytes.{Appends};
ghost use Rattle.std.specs.List.{flat_map};
ghost use Rattle.cap_show.specs.ShowText as spec;

use crate::text::{ChangeText, GroupText, PatchText};
use cap_changes::{
    ChangeList, Entries, Entry, EntryRef, GroupList, Patch, PatchList, RowChange, TableGroup,
};
use cap_value::{AllocHandle, OutOfMemory};
use std::io;
use std::io::Write;

// The line of a blob without groups.
const EMPTY: &[u8] = b"empty\n";

/// A changeset as text: a line for it, for each group and for each change, or `empty` where it has no group.
///
/// The line of a change has its kind, `direct` or `indirect`, and its fields in parentheses, with `-` for
/// each undefined field.
pub fn changeset_text<A: AllocHandle>(
    alloc: A,
    changes: &ChangeList<A>,
) -> Result<Vec<u8, A>, OutOfMemory>
    ensures { IfOk result (λ text. text.items ≡ spec.changeset_text changes.now) }
{
    list_text::<RowChange<A>, A>(alloc, "changeset", changes)
}

/// A patchset as text, as a changeset is, but an update has only its key and new values, and a delete only
/// its key.
pub fn patchset_text<A: AllocHandle>(
    alloc: A,
    patches: &PatchList<A>,
) -> Result<Vec<u8, A>, OutOfMemory>
    ensures { IfOk result (λ text. text.items ≡ spec.patchset_text patches.now) }
{
    list_text::<Patch<A>, A>(alloc, "patchset", patches)
}

// What a group holds, as a line.
trait TextEntry: Entry {
    // The line of one.
    ghost text: { Self → List ℕ };

    // Writes it.
    fn write_text<W: Write>(change: &EntryRef<'_, Self>, output: &mut W) -> io::Result<()>
    where
        Self: Sized,
        ensures { OnOk result (Appends (W.contents output.old) (W.contents output.new) (text change.now)) };
}

impl<A: AllocHandle> TextEntry for RowChange<A> {
    ghost use Rattle.cap_show.specs.ShowText.{change_text};

    ghost text = { change_text };

    fn write_text<W: Write>(change: &EntryRef<'_, Self>, output: &mut W) -> io::Result<()> {
        write!(output, "{}", ChangeText(change))
    }
}

impl<A: AllocHandle> TextEntry for Patch<A> {
    ghost use Rattle.cap_show.specs.ShowText.{patch_text};

    ghost text = { patch_text };

    fn write_text<W: Write>(change: &EntryRef<'_, Self>, output: &mut W) -> io::Result<()> {
        write!(output, "{}", PatchText(change))
    }
}

fn list_text<C: TextEntry, A: AllocHandle>(
    alloc: A,
    kind: &str,
    list: &GroupList<C, A>,
) -> Result<Vec<u8, A>, OutOfMemory>
    ensures { IfOk result (λ text. text.items ≡ spec.list_text C.text kind.now list.now) }
{
    let mut text = Vec::new(alloc);
    // A vector fails at a write only out of memory.
    match write_list(kind, list, &mut text) {
        Ok(()) => Ok(text),
        Err(_) => Err(OutOfMemory),
    }
}

// Writes the line of the list's kind and its groups, or `empty` where it has no group.
fn write_list<C: TextEntry, A: AllocHandle, W: Write>(
    kind: &str,
    list: &GroupList<C, A>,
    output: &mut W,
) -> io::Result<()>
    ensures { OnOk result (Appends (W.contents output.old) (W.contents output.new)
        (spec.list_text C.text kind.now list.now)) }
{
    if list.groups().is_empty() {
        return output.write_all(EMPTY);
    }
    writeln!(output, "{kind}")?;
    write_groups(list.groups(), output)
}

fn write_groups<C: TextEntry, A: AllocHandle, W: Write>(
    groups: &[TableGroup<C, A>],
    output: &mut W,
) -> io::Result<()>
    ensures { OnOk result (Appends (W.contents output.old) (W.contents output.new)
        (flat_map (spec.group_text C.text) groups.now)) }
{
    for group in groups {
        write_group(group, output)?;
    }
    Ok(())
}

fn write_group<C: TextEntry, A: AllocHandle, W: Write>(
    group: &TableGroup<C, A>,
    output: &mut W,
) -> io::Result<()>
    ensures { OnOk result (Appends (W.contents output.old) (W.contents output.new)
        (spec.group_text C.text group.now)) }
{
    let head = GroupText::of(group.table(), group.schema());
    write!(output, "{head}")?;
    write_lines(group.changes(), output)
}

fn write_lines<C: TextEntry, W: Write>(changes: Entries<'_, C>, output: &mut W) -> io::Result<()>
    ensures { OnOk result (Appends (W.contents output.old) (W.contents output.new)
        (flat_map C.text changes.entry)) }
{
    for change in changes {
        C::write_text(&change, output)?;
    }
    Ok(())
}
