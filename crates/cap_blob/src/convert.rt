//! The inverse and the patchset of a changeset, from bytes to bytes.
ghost use Rattle.std.specs.Prelude.{◌≡◌, IfOk, List};
ghost use Rattle.std.specs.Option.{option_map};
ghost use Rattle.cap_value.specs.Memory.{RefusesFirst, ShowsUnlessMemory};
ghost use Rattle.cap_changes.specs.Group.{TableChanges};
ghost use Rattle.cap_changes.specs.Invert.{inverse_list_of};
ghost use Rattle.cap_changes.specs.Patch.{patch_list_of};
ghost use Rattle.cap_codec.specs.Changeset.{list_bytes_with};
ghost use Rattle.cap_codec.specs.FirstByte.{first_fault};
ghost use Rattle.cap_codec.specs.Patchset.{patch_list_bytes_with};
ghost use Rattle.cap_codec.specs.Spelling.{Spells};
ghost use Rattle.cap_codec.specs.declared.read.Contents.TheVariants.{Changes};
ghost use Rattle.cap_blob.specs.Converted.{changes_at, inverse_at, patchset_at, target_at};
ghost use Rattle.cap_blob.specs.Target.{converted_list};
ghost use Rattle.cap_blob.specs.declared.refusal.ChangesetRefusal.TheVariants.{Malformed};

use crate::{ChangesetRefusal, Target};
use cap_changes::{ChangeList, invert, to_patches};
use cap_codec::{Contents, KeyFlags, read_blob, write_changes_with, write_patches_with};
use cap_value::{AllocHandle, Fault};

/// The bytes of what a changeset is converted to, its inverse or its patchset, written with these key flags.
/// SQLite applies a group with a key of several columns only where they are `KeyFlags::Places`.
///
/// Refused with `Malformed` where the bytes are no blob, and with `Patchset` where they are a patchset.
pub fn convert_bytes<A: AllocHandle>(
    alloc: A,
    target: Target,
    key_flags: KeyFlags,
    bytes: &[u8],
) -> Result<Vec<u8, A>, Fault<ChangesetRefusal>>
    // The list that the bytes spell is converted.
    ensures written { IfOk result (λ out. (list : List (TableChanges A)) × Spells (Changes list) bytes.now
        × (out.items ≡ converted_list key_flags target list)) }
    // Which bytes, or which refusal.
    ensures answers { ShowsUnlessMemory (λ out. out.items) result (target_at A target key_flags bytes.now) }
    // A first byte that begins no group is refused without memory.
    ensures first { RefusesFirst (option_map Malformed (first_fault bytes.now)) result }
{
    let list = read_changes(alloc, bytes)?;
    match target {
        Target::Inverse => {
            let inverse = invert(list)?;
            Ok(write_changes_with(alloc, key_flags, &inverse)?)
        }
        Target::Patchset => {
            let patches = to_patches(alloc, &list)?;
            Ok(write_patches_with(alloc, key_flags, &patches)?)
        }
    }
}

/// The bytes of the inverse of a changeset, with the key flags and the refusals of `convert_bytes` (The
/// Session Extension, "sqlite3changeset_invert").
pub fn invert_bytes<A: AllocHandle>(
    alloc: A,
    key_flags: KeyFlags,
    bytes: &[u8],
) -> Result<Vec<u8, A>, Fault<ChangesetRefusal>>
    // The inverse of the list that the bytes spell is written.
    ensures inverse { IfOk result (λ out. (list : List (TableChanges A)) × Spells (Changes list) bytes.now
        × (out.items ≡ list_bytes_with key_flags (inverse_list_of list))) }
    // Which bytes, or which refusal.
    ensures answers { ShowsUnlessMemory (λ out. out.items) result (inverse_at A key_flags bytes.now) }
    // A first byte that begins no group is refused without memory.
    ensures first { RefusesFirst (option_map Malformed (first_fault bytes.now)) result }
{
    convert_bytes(alloc, Target::Inverse, key_flags, bytes)
}

/// The bytes of the patchset of a changeset, with the key flags and the refusals of `convert_bytes` (The
/// Session Extension, "sqlite3session_patchset").
pub fn patchset_bytes<A: AllocHandle>(
    alloc: A,
    key_flags: KeyFlags,
    bytes: &[u8],
) -> Result<Vec<u8, A>, Fault<ChangesetRefusal>>
    // The patchset of the list that the bytes spell is written.
    ensures patchset { IfOk result (λ out. (list : List (TableChanges A)) × Spells (Changes list) bytes.now
        × (out.items ≡ patch_list_bytes_with key_flags (patch_list_of list))) }
    // Which bytes, or which refusal.
    ensures answers { ShowsUnlessMemory (λ out. out.items) result (patchset_at A key_flags bytes.now) }
    // A first byte that begins no group is refused without memory.
    ensures first { RefusesFirst (option_map Malformed (first_fault bytes.now)) result }
{
    convert_bytes(alloc, Target::Patchset, key_flags, bytes)
}

// The changes of a changeset.
fn read_changes<A: AllocHandle>(
    alloc: A,
    bytes: &[u8],
) -> Result<ChangeList<A>, Fault<ChangesetRefusal>>
    ensures spelled { IfOk result (λ list. Spells (Changes list) bytes.now) }
    ensures answers { ShowsUnlessMemory (λ list. list) result (changes_at A bytes.now) }
    ensures first { RefusesFirst (option_map Malformed (first_fault bytes.now)) result }
{
    match read_blob(alloc, bytes) {
        Ok(Contents::Changes(list)) => Ok(list),
        Ok(Contents::Patches(_)) => Err(Fault::Refused(ChangesetRefusal::Patchset)),
        Err(Fault::Refused(why)) => Err(Fault::Refused(ChangesetRefusal::Malformed(why))),
        Err(Fault::OutOfMemory) => Err(Fault::OutOfMemory),
    }
}
