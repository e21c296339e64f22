//! Encoding of changesets and patchsets.

ghost use mathlib.Core.List.{IsPrefix};
ghost use Rattle.std.specs.Prelude.{◌≡◌, ◌++◌, OnErr, OnOk, IfOk};
ghost use Rattle.std.specs.List.{flat_map};
ghost use Rattle.cap_codec.specs.Changeset.{flags_bytes, header_bytes, entries_bytes};
ghost use Rattle.cap_codec.specs.Changeset.{list_bytes, list_bytes_with};
ghost use Rattle.cap_changes.specs.KindByte.{changeset_kind};
ghost use Rattle.cap_codec.specs.Patchset.{patch_list_bytes, patch_list_bytes_with};

use crate::key_flags::KeyFlags;
use cap_changes::{
    CHANGESET_KIND, ChangeList, Entry, GroupList, Patch, PatchList, RowChange, TableGroup,
};
use cap_field::push_varint;
use cap_row::Schema;
use cap_value::{AllocHandle, Name, OutOfMemory};

fn push_flags<A: AllocHandle>(
    out: &mut Vec<u8, A>,
    key_flags: KeyFlags,
    flags: &[bool],
) -> Result<(), OutOfMemory>
    ensures bytes { OnOk result (out.new.items ≡ out.old.items ++ flags_bytes key_flags flags.now) }
    ensures begins { OnErr result (IsPrefix out.old.items out.new.items) }
{
    let mut place = 0u8;
    for flag in flags {
        place = place.saturating_add(*flag as u8);
        let byte = match (key_flags, *flag) {
            (KeyFlags::Ones, key) => key as u8,
            (KeyFlags::Places, true) => place,
            (KeyFlags::Places, false) => 0,
        };
        out.push(byte)?;
    }
    Ok(())
}

/// Appends the header of a group: its kind, the columns with their key flags, and the table's name.
pub fn push_header<A: AllocHandle>(
    out: &mut Vec<u8, A>,
    key_flags: KeyFlags,
    kind: u8,
    table: &Name<A>,
    schema: &Schema<A>,
) -> Result<(), OutOfMemory>
    ensures bytes { OnOk result (out.new.items
        ≡ out.old.items ++ header_bytes key_flags kind table.now schema.now) }
    ensures begins { OnErr result (IsPrefix out.old.items out.new.items) }
{
    out.push(kind)?;
    push_varint(out, schema.width())?;
    push_flags(out, key_flags, schema.flags())?;
    out.extend_from_slice(table.as_str().as_bytes())?;
    out.push(0)?;
    Ok(())
}

/// Appends the header of a group of a changeset, with these key flags.
///
/// On an error the bytes are as before.
pub fn push_group_header<A: AllocHandle>(
    out: &mut Vec<u8, A>,
    key_flags: KeyFlags,
    table: &Name<A>,
    schema: &Schema<A>,
) -> Result<(), OutOfMemory>
    ensures bytes { OnOk result (out.new.items
        ≡ out.old.items ++ header_bytes key_flags changeset_kind table.now schema.now) }
    ensures kept { OnErr result (out.new.items ≡ out.old.items) }
{
    let before = out.len();
    let pushed = push_header(out, key_flags, CHANGESET_KIND, table, schema);
    if pushed.is_err() {
        out.truncate(before);
    }
    pushed
}

// Appends a group. A group without changes has no bytes.
#[tactic(auto, using(std::proofs::lemmas::Bool::Decides::nat_tests))]
fn push_group<C: Entry, A: AllocHandle>(
    out: &mut Vec<u8, A>,
    key_flags: KeyFlags,
    group: &TableGroup<C, A>,
) -> Result<(), OutOfMemory>
    ensures { OnOk result (out.new.items
        ≡ out.old.items ++ entries_bytes key_flags C.kind C.bytes_of group.now) }
{
    if group.changes().is_empty() {
        return Ok(());
    }
    push_header(out, key_flags, C::kind(), group.table(), group.schema())?;
    out.extend_from_slice(group.as_bytes())?;
    Ok(())
}

fn write_groups<C: Entry, A: AllocHandle>(
    alloc: A,
    key_flags: KeyFlags,
    list: &GroupList<C, A>,
) -> Result<Vec<u8, A>, OutOfMemory>
    ensures { IfOk result (λ bytes. bytes.items
        ≡ flat_map (entries_bytes key_flags C.kind C.bytes_of) list.now) }
{
    let mut out = Vec::new(alloc);
    for group in list.groups() {
        push_group(&mut out, key_flags, group)?;
    }
    Ok(out)
}

/// The bytes of a changeset: its groups in order (The Session Extension, "Changeset Format"). A group without
/// changes has no bytes. Each key column is flagged by `01`.
pub fn write_changes<A: AllocHandle>(
    alloc: A,
    list: &ChangeList<A>,
) -> Result<Vec<u8, A>, OutOfMemory>
    ensures { IfOk result (λ bytes. bytes.items ≡ list_bytes list.now) }
{
    write_changes_with(alloc, KeyFlags::Ones, list)
}

/// The bytes of a changeset, with these key flags. SQLite applies a group with a key of several columns only
/// where they are `KeyFlags::Places`.
pub fn write_changes_with<A: AllocHandle>(
    alloc: A,
    key_flags: KeyFlags,
    list: &ChangeList<A>,
) -> Result<Vec<u8, A>, OutOfMemory>
    ensures { IfOk result (λ bytes. bytes.items ≡ list_bytes_with key_flags list.now) }
{
    write_groups::<RowChange<A>, A>(alloc, key_flags, list)
}

/// The bytes of a patchset: its groups in order (The Session Extension, "Changeset Format"). A group without
/// changes has no bytes. Each key column is flagged by `01`.
pub fn write_patches<A: AllocHandle>(
    alloc: A,
    list: &PatchList<A>,
) -> Result<Vec<u8, A>, OutOfMemory>
    ensures { IfOk result (λ bytes. bytes.items ≡ patch_list_bytes list.now) }
{
    write_patches_with(alloc, KeyFlags::Ones, list)
}

/// The bytes of a patchset, with these key flags. SQLite applies a group with a key of several columns only
/// where they are `KeyFlags::Places`.
pub fn write_patches_with<A: AllocHandle>(
    alloc: A,
    key_flags: KeyFlags,
    list: &PatchList<A>,
) -> Result<Vec<u8, A>, OutOfMemory>
    ensures { IfOk result (λ bytes. bytes.items ≡ patch_list_bytes_with key_flags list.now) }
{
    write_groups::<Patch<A>, A>(alloc, key_flags, list)
}
