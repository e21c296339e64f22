//! Changegroups, and the concatenation of blobs.
ghost use Rattle.std.specs.Prelude.{◌≡◌, IfOk, OnErr, OnOk, Ok, Some, None, if◌then◌else◌};
ghost use Rattle.std.specs.Option.{option_map};
ghost use Rattle.cap_group.specs.declared.refusal.BlobRefusal.TheVariants.{Malformed};
ghost use Rattle.cap_group.specs.declared.refusal.GroupRefusal.TheVariants.{OtherKind};
ghost use Rattle.cap_value.specs.Memory.{AnswersUnlessMemory, LeavesUnlessMemory, RefusesFirst};
ghost use Rattle.cap_value.specs.Memory.{ShowsUnlessMemory};
ghost use Rattle.cap_codec.specs.FirstByte.{first_fault};
ghost use Rattle.cap_codec.specs.Spelling.{Spells};
ghost use Rattle.cap_codec.specs.Writable.{blob_bytes_with};
ghost use Rattle.cap_codec.specs.declared.read.Contents.{Contents as Spelled};
ghost use Rattle.cap_group.specs.ChangeGroup.{added, concat_of, contents_of};
ghost use Rattle.cap_group.specs.ChangeGroup.{empty_group, has_changes, refused_kind};
ghost use Rattle.cap_group.specs.Bytes.{bytes_added, contents_at};

use crate::combine::Combine;
use crate::tables::{add_groups, count_of, groups_of, has_change, merge_each};
use crate::{BlobRefusal, GroupRefusal};
use cap_changes::{Patch, RowChange, TableGroup};
use cap_codec::{Contents, KeyFlags, read_blob, write_changes_with, write_patches_with};
use cap_value::{AllocHandle, Fault, OutOfMemory};
use std::marker::Model;

// Changes are made one for each row where they are more than this and twice what they were.
const MERGE_ABOVE: usize = 1_000;

/// The changes of several blobs together, one for each row (The Session Extension, "sqlite3changegroup").
///
/// Changesets or patchsets are added in the order in which their changes were made. Tables are in the order
/// of their first change, and the changes of a table in the order of their keys.
pub struct ChangeGroup<A: AllocHandle> {
    alloc: A,
    // The changes of the blobs, one after the other.
    changes: Vec<TableGroup<RowChange<A>, A>, A>,
    patches: Vec<TableGroup<Patch<A>, A>, A>,
    // How many there were when they were last made one for each row, or after the first blob.
    merged: usize,
}

impl<A: AllocHandle> Model for ChangeGroup<A> {
    ghost use Rattle.std.specs.Prelude.{map};
    ghost use Rattle.cap_group.specs.ChangeGroup.{GroupContent};
    ghost use Rattle.cap_group.specs.ChangeKey.{change_key, patch_key};
    ghost use Rattle.cap_group.specs.Combined.{combined, patches_combined};
    ghost use Rattle.cap_group.specs.KeyedChanges.{keyed_of};

    ghost Value = { GroupContent A };

    ghost view = { λ g. record {
      changes = map (keyed_of change_key combined) g.changes.items;
      patches = map (keyed_of patch_key (λ flags. patches_combined)) g.patches.items;
    } };
}

// A derived `Drop` would be opened in each caller's loop.
impl<A: AllocHandle> Drop for ChangeGroup<A> {
    fn drop(self) {
        let ChangeGroup {
            alloc: _,
            changes: _,
            patches: _,
            merged: _,
        } = self;
    }
}

impl<A: AllocHandle> ChangeGroup<A> {
    /// A changegroup without changes. Takes no memory.
    pub fn new(alloc: A) -> Self
        ensures { result ≡ empty_group }
    {
        ChangeGroup {
            alloc,
            changes: Vec::new(alloc),
            patches: Vec::new(alloc),
            merged: 0,
        }
    }

    /// Adds the changes of a blob, each to what there is of its row.
    ///
    /// Refused with `OtherKind` where it has changes of one kind, changeset or patchset, and the changegroup
    /// has had those of the other, and then with `OtherColumns` at the first group whose table had other
    /// columns or another key. A group without changes adds nothing. On an error the changegroup is as
    /// before.
    pub fn add(&mut self, blob: &Contents<A>) -> Result<(), Fault<GroupRefusal>>
        ensures content { LeavesUnlessMemory result (added self.old blob.now) self.new }
        ensures kept { OnErr result (self.new ≡ self.old) }
        ensures first { RefusesFirst (refused_kind self.old blob.now) result }
    {
        if self.refuses_kind_of(blob) {
            return Err(Fault::Refused(GroupRefusal::OtherKind));
        }
        self.merge()?;
        match blob {
            Contents::Changes(list) => add_groups(self.alloc, &mut self.changes, list.groups()),
            Contents::Patches(list) => add_groups(self.alloc, &mut self.patches, list.groups()),
        }
    }

    // Makes the changes one for each row where they have become many.
    fn merge(&mut self) -> Result<(), OutOfMemory>
        ensures { self.new ≡ self.old }
    {
        let count = count_of(&self.changes).wrapping_add(count_of(&self.patches));
        if self.merged != 0 {
            if count <= self.merged.saturating_mul(2).saturating_add(MERGE_ABOVE) {
                return Ok(());
            }
            merge_each(self.alloc, &mut self.changes)?;
            merge_each(self.alloc, &mut self.patches)?;
        }
        self.merged = count_of(&self.changes).wrapping_add(count_of(&self.patches));
        Ok(())
    }

    fn refuses_kind_of(&self, blob: &Contents<A>) -> bool
        ensures { (if result then Some OtherKind else None) ≡ refused_kind self.now blob.now }
    {
        match blob {
            Contents::Changes(list) => has_changes(list.groups()) && !self.patches.is_empty(),
            Contents::Patches(list) => has_changes(list.groups()) && !self.changes.is_empty(),
        }
    }

    /// The changes as a blob, without empty groups: a patchset where there are patches, else a changeset.
    pub fn contents(&self) -> Result<Contents<A>, OutOfMemory>
        ensures { IfOk result (λ blob. blob ≡ contents_of self.now) }
    {
        let patches = groups_of(self.alloc, &self.patches)?;
        if patches.groups().is_empty() {
            Ok(Contents::Changes(groups_of(self.alloc, &self.changes)?))
        } else {
            Ok(Contents::Patches(patches))
        }
    }

    /// Adds the changes of the blob with these bytes, as `add` does.
    ///
    /// Refused with `Malformed` where the bytes are no blob, and with `Group` where `add` refuses the blob.
    /// On an error the changegroup is as before.
    pub fn add_bytes(&mut self, bytes: &[u8]) -> Result<(), Fault<BlobRefusal>>
        // The blob that the bytes spell is added.
        ensures spelled { OnOk result ((blob : Spelled A) × Spells blob bytes.now
            × (added self.old blob ≡ Ok self.new)) }
        // What is left, or which refusal.
        ensures content { LeavesUnlessMemory result (bytes_added self.old bytes.now) self.new }
        ensures kept { OnErr result (self.new ≡ self.old) }
        // A first byte that begins no group is refused without memory.
        ensures first { RefusesFirst (option_map Malformed (first_fault bytes.now)) result }
    {
        let blob = read_contents(self.alloc, bytes)?;
        match self.add(&blob) {
            Ok(()) => Ok(()),
            Err(Fault::Refused(why)) => Err(Fault::Refused(BlobRefusal::Group(why))),
            Err(Fault::OutOfMemory) => Err(Fault::OutOfMemory),
        }
    }

    /// The bytes of the changes, with these key flags (The Session Extension, "sqlite3changegroup_output").
    /// SQLite applies a group with a key of several columns only where they are `KeyFlags::Places`.
    pub fn bytes(&self, key_flags: KeyFlags) -> Result<Vec<u8, A>, OutOfMemory>
        ensures { IfOk result (λ out. out.items ≡ blob_bytes_with key_flags (contents_of self.now)) }
    {
        match self.contents()? {
            Contents::Changes(list) => write_changes_with(self.alloc, key_flags, &list),
            Contents::Patches(list) => write_patches_with(self.alloc, key_flags, &list),
        }
    }
}

// The blob with these bytes.
fn read_contents<A: AllocHandle>(alloc: A, bytes: &[u8]) -> Result<Contents<A>, Fault<BlobRefusal>>
    ensures spelled { IfOk result (λ blob. Spells blob bytes.now) }
    ensures answers { ShowsUnlessMemory (λ blob. blob) result (contents_at A bytes.now) }
    ensures first { RefusesFirst (option_map Malformed (first_fault bytes.now)) result }
{
    match read_blob(alloc, bytes) {
        Ok(blob) => Ok(blob),
        Err(Fault::Refused(fault)) => Err(Fault::Refused(BlobRefusal::Malformed(fault))),
        Err(Fault::OutOfMemory) => Err(Fault::OutOfMemory),
    }
}

// Whether there is a change.
fn has_changes<C: Combine<A> + Drop, A: AllocHandle>(groups: &[TableGroup<C, A>]) -> bool
    ensures { result ≡ has_changes groups.now }
{
    groups.iter().any(|group| has_change(group))
}

/// The changes of blobs together, in their order (The Session Extension, "sqlite3changeset_concat"), with the
/// refusals of `ChangeGroup::add`.
pub fn concat<A: AllocHandle>(
    alloc: A,
    blobs: &[Contents<A>],
) -> Result<Contents<A>, Fault<GroupRefusal>>
    ensures { AnswersUnlessMemory result (concat_of blobs.now) }
{
    let mut group = ChangeGroup::new(alloc);
    for blob in blobs {
        group.add(blob)?;
    }
    Ok(group.contents()?)
}
