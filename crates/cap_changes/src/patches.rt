//! The patchset of a changeset.
ghost use mathlib.Core.List.{IsPrefix};
ghost use Rattle.std.specs.Prelude.{◌≡◌, ◌++◌, IsTrue, IfOk, OnErr, OnOk};
ghost use Rattle.cap_changes.specs.ChangeBytes.{patch_bytes};
ghost use Rattle.cap_changes.specs.Field.{record_bytes, key_bytes};
ghost use Rattle.cap_changes.specs.Fits.{change_fits};
ghost use Rattle.cap_changes.specs.Patch as made;
ghost use Rattle.cap_changes.specs.Requirements.{requirements, satisfy};
ghost use Rattle.cap_changes.specs.declared.record_kind.RecordKind.TheVariants.{Full};

use crate::bytes::push_operation;
use crate::operation::Operation;
use crate::{
    ChangeList, ChangeRef, EntryRef, Group, Patch, PatchGroup, PatchList, RecordRef, RowChange,
    TableGroup,
};
use cap_value::{AllocHandle, OutOfMemory};

/// The patchset of a changeset: an insert is unchanged, an update keeps the key fields and the new values of
/// its modified fields, and a delete keeps the key fields (The Session Extension, "sqlite3session_patchset").
pub fn to_patches<A: AllocHandle>(
    alloc: A,
    list: &ChangeList<A>,
) -> Result<PatchList<A>, OutOfMemory>
    ensures { IfOk result (λ patches. patches ≡ made.patch_list_of list.now) }
{
    let mut patches = PatchList::new(alloc);
    for group in list.groups() {
        patches.push(group_patches(alloc, group)?)?;
    }
    Ok(patches)
}

// The patch of each change of a group, in the same order.
fn group_patches<A: AllocHandle>(alloc: A, group: &Group<A>) -> Result<PatchGroup<A>, OutOfMemory>
    ensures { IfOk result (λ patches. patches ≡ made.patches_of group.now) }
{
    let mut patches = TableGroup::new(alloc, group.table().copy()?, group.schema().copy()?);
    patches.reserve_for(group)?;
    for change in group.changes() {
        patches.push_patch_of(&change)?;
    }
    Ok(patches)
}

/// Appends the bytes of the patch of a change.
pub(crate) fn push_patch<A: AllocHandle>(
    out: &mut Vec<u8, A>,
    flags: &[bool],
    change: &EntryRef<'_, RowChange<A>>,
) -> Result<(), OutOfMemory>
    requires { IsTrue (change_fits flags.now change.now) }
    ensures bytes { OnOk result (out.new.items
        ≡ out.old.items ++ patch_bytes (made.patch_of flags.now change.now)) }
    ensures begins { OnErr result (IsPrefix out.old.items out.new.items) }
{
    match change.read() {
        ChangeRef::Insert { .. } => Ok(out.extend_from_slice(change.as_bytes())?),
        ChangeRef::Update { indirect, old, new } => {
            push_operation(out, Operation::Update, indirect)?;
            push_update_record(out, flags, old, new)
        }
        ChangeRef::Delete { indirect, old } => {
            push_operation(out, Operation::Delete, indirect)?;
            push_key_fields(out, flags, old)
        }
    }
}

/// Appends the key fields of `old`, and the other fields of `new`.
#[tactic(auto, using(crate::proofs::PutLemmas::no_pairs, std::proofs::lemmas::Grind::common_steps))]
pub fn push_update_record<A: AllocHandle>(
    out: &mut Vec<u8, A>,
    flags: &[bool],
    old: RecordRef<'_, A>,
    new: RecordRef<'_, A>,
) -> Result<(), OutOfMemory>
    ensures bytes { OnOk result (out.new.items
        ≡ out.old.items ++ record_bytes (made.update_record flags.now old.entry new.entry)) }
    ensures begins { OnErr result (IsPrefix out.old.items out.new.items) }
{
    let mut old = old;
    let mut new = new;
    for key in flags {
        let (Some(before), Some(after)) = (old.next_bytes(), new.next_bytes()) else {
            return Ok(());
        };
        out.extend_from_slice(if *key { before } else { after })?;
    }
    Ok(())
}

// Appends the key fields of a record, of which every field is defined.
fn push_key_fields<A: AllocHandle>(
    out: &mut Vec<u8, A>,
    flags: &[bool],
    old: RecordRef<'_, A>,
) -> Result<(), OutOfMemory>
    requires { IsTrue (satisfy (requirements Full flags.now) old) }
    ensures bytes { OnOk result (out.new.items
        ≡ out.old.items ++ key_bytes (made.key_record flags.now old.entry)) }
    ensures begins { OnErr result (IsPrefix out.old.items out.new.items) }
{
    let mut old = old;
    for key in flags {
        let Some(field) = old.next_bytes() else {
            return Ok(());
        };
        if *key {
            out.extend_from_slice(field)?;
        }
    }
    Ok(())
}
