//! Rebasers.
ghost use Rattle.std.specs.Prelude.{◌≡◌, ◌++◌, ◌∷◌, [], List, Ok, IfOk, OnErr, OnOk};
ghost use Rattle.std.specs.List.{list_any};
ghost use Rattle.std.specs.Option.{option_map};
ghost use Rattle.cap_value.specs.Memory.{LeavesUnlessMemory, RefusesFirst, ShowsUnlessMemory};
ghost use Rattle.cap_changes.specs.Group.{TableChanges};
ghost use Rattle.cap_codec.specs.Changeset.{list_bytes_with};
ghost use Rattle.cap_codec.specs.FirstByte.{first_fault};
ghost use Rattle.cap_codec.specs.Spelling.{Spells};
ghost use Rattle.cap_codec.specs.declared.read.Contents.TheVariants.{Changes};
ghost use Rattle.cap_rebase.specs.Bytes.{configured_at, rebased_at};
ghost use Rattle.cap_rebase.specs.Rebaser as rebaser;
ghost use Rattle.cap_rebase.specs.declared.refusal.BlobRefusal.TheVariants.{Malformed};

use crate::bytes::read_changes;
use crate::push::push_group;
use crate::rows::rebased_group;
use crate::{BlobRefusal, RebaseRefusal};
use cap_changes::{ChangeList, Group};
use cap_codec::{KeyFlags, write_changes_with};
use cap_value::{AllocHandle, Fault, OutOfMemory};
use std::marker::Model;

/// The buffers of applications, over which changesets are rebased (The Session Extension, "sqlite3rebaser").
///
/// A buffer is a changeset: the remote changes that met a conflict, each with its answer in the place of its
/// indirect flag, set for REPLACE and not for OMIT.
pub struct Rebaser<A: AllocHandle> {
    alloc: A,
    buffers: Vec<ChangeList<A>, A>,
}

impl<A: AllocHandle> Model for Rebaser<A> {
    ghost use Rattle.cap_rebase.specs.Rebaser.{Buffers};

    ghost Value = { Buffers A };

    ghost view = { λ r. r.buffers.items };
}

// A derived `Drop` would be opened in each caller.
impl<A: AllocHandle> Drop for Rebaser<A> {
    fn drop(self) {
        let Rebaser {
            alloc: _,
            buffers: _,
        } = self;
    }
}

impl<A: AllocHandle> Rebaser<A> {
    /// A rebaser without buffers, over which each changeset is as it was. Takes no memory.
    pub fn new(alloc: A) -> Self
        ensures { result ≡ [] }
    {
        Rebaser {
            alloc,
            buffers: Vec::new(alloc),
        }
    }

    /// Adds the buffer of the next application (The Session Extension, "sqlite3rebaser_configure").
    ///
    /// Refused with `OtherColumns` at the first group whose table has other columns or another key in a
    /// buffer before it. On an error the rebaser is as before.
    pub fn configure(&mut self, buffer: ChangeList<A>) -> Result<(), Fault<RebaseRefusal>>
        ensures content { LeavesUnlessMemory result (rebaser.configured self.old buffer) self.new }
        ensures kept { OnErr result (self.new ≡ self.old) }
        ensures first { RefusesFirst (rebaser.refused self.old buffer) result }
    {
        if let Some(why) = refused(&self.buffers, buffer.groups()) {
            return Err(Fault::Refused(why));
        }
        Ok(self.push(buffer)?)
    }

    fn push(&mut self, buffer: ChangeList<A>) -> Result<(), OutOfMemory>
        ensures ok { OnOk result (self.new ≡ self.old ++ buffer ∷ []) }
        ensures err { OnErr result (self.new ≡ self.old) }
    {
        self.buffers.push(buffer)?;
        Ok(())
    }

    /// The changeset over the buffers: each change in its place over all buffered changes of its row, without
    /// those of which nothing is left, and without empty groups (The Session Extension,
    /// "sqlite3rebaser_rebase").
    ///
    /// Refused with `OtherColumns` at the first group whose table has other columns or another key in a
    /// buffer.
    pub fn rebase(&self, list: &ChangeList<A>) -> Result<ChangeList<A>, Fault<RebaseRefusal>>
        ensures rebased { ShowsUnlessMemory (λ rebased. rebased) result (rebaser.rebase self.now list.now) }
        ensures first { RefusesFirst (rebaser.refused self.now list.now) result }
    {
        if let Some(why) = refused(&self.buffers, list.groups()) {
            return Err(Fault::Refused(why));
        }
        Ok(rebased_list(self.alloc, &self.buffers, list.groups())?)
    }

    /// Adds the buffer with these bytes, as `configure` does.
    ///
    /// Refused with `Malformed` where the bytes are no blob, with `Patchset` where they are a patchset, and
    /// with `Columns` where `configure` refuses the buffer. On an error the rebaser is as before.
    pub fn configure_bytes(&mut self, bytes: &[u8]) -> Result<(), Fault<BlobRefusal>>
        // The buffer that the bytes spell is added.
        ensures spelled { OnOk result ((buffer : List (TableChanges A)) × Spells (Changes buffer) bytes.now
            × (rebaser.configured self.old buffer ≡ Ok self.new)) }
        // What is left, or which refusal.
        ensures content { LeavesUnlessMemory result (configured_at self.old bytes.now) self.new }
        ensures kept { OnErr result (self.new ≡ self.old) }
        // A first byte that begins no group is refused without memory.
        ensures first { RefusesFirst (option_map Malformed (first_fault bytes.now)) result }
    {
        let buffer = read_changes(self.alloc, bytes)?;
        match self.configure(buffer) {
            Ok(()) => Ok(()),
            Err(Fault::Refused(why)) => Err(Fault::Refused(BlobRefusal::Columns(why))),
            Err(Fault::OutOfMemory) => Err(Fault::OutOfMemory),
        }
    }

    /// The bytes of the changeset with these bytes over the buffers, as `rebase` makes it.
    ///
    /// Refused with `Malformed` where the bytes are no blob, with `Patchset` where they are a patchset, and
    /// with `Columns` where `rebase` refuses the changeset.
    pub fn rebase_bytes(
        &self,
        key_flags: KeyFlags,
        bytes: &[u8],
    ) -> Result<Vec<u8, A>, Fault<BlobRefusal>>
        // The changeset that the bytes spell is rebased and written.
        ensures rebased { IfOk result (λ out. (list made : List (TableChanges A))
            × Spells (Changes list) bytes.now × (rebaser.rebase self.now list ≡ Ok made)
            × (out.items ≡ list_bytes_with key_flags made)) }
        // Which bytes, or which refusal.
        ensures answers { ShowsUnlessMemory (λ out. out.items) result
            (rebased_at key_flags self.now bytes.now) }
        // A first byte that begins no group is refused without memory.
        ensures first { RefusesFirst (option_map Malformed (first_fault bytes.now)) result }
    {
        let list = read_changes(self.alloc, bytes)?;
        match self.rebase(&list) {
            Ok(made) => Ok(write_changes_with(self.alloc, key_flags, &made)?),
            Err(Fault::Refused(why)) => Err(Fault::Refused(BlobRefusal::Columns(why))),
            Err(Fault::OutOfMemory) => Err(Fault::OutOfMemory),
        }
    }
}

fn rebased_list<A: AllocHandle>(
    alloc: A,
    buffers: &[ChangeList<A>],
    groups: &[Group<A>],
) -> Result<ChangeList<A>, OutOfMemory>
    ensures { IfOk result (λ list. list ≡ rebaser.rebased_list buffers.now groups.now) }
{
    let mut list = ChangeList::new(alloc);
    for group in groups {
        push_group(&mut list, rebased_group(alloc, buffers, group)?)?;
    }
    Ok(list)
}

// The first group of which a buffer has other columns.
fn refused<A: AllocHandle>(buffers: &[ChangeList<A>], groups: &[Group<A>]) -> Option<RebaseRefusal>
    ensures { result ≡ rebaser.refused buffers.now groups.now }
{
    for (place, group) in groups.iter().enumerate() {
        if has_other_columns(buffers, group) {
            return Some(RebaseRefusal::OtherColumns { group: place });
        }
    }
    None
}

fn has_other_columns<A: AllocHandle>(buffers: &[ChangeList<A>], group: &Group<A>) -> bool
    ensures { result ≡ rebaser.has_other_columns buffers.now group.now }
{
    buffers
        .iter()
        .any(|buffer| one_differs(group, buffer.groups()))
}

fn one_differs<A: AllocHandle>(group: &Group<A>, others: &[Group<A>]) -> bool
    ensures { result ≡ list_any (rebaser.differ_in_columns group.now) others.now }
{
    others.iter().any(|other| differ_in_columns(group, other))
}

fn differ_in_columns<A: AllocHandle>(group: &Group<A>, other: &Group<A>) -> bool
    ensures { result ≡ rebaser.differ_in_columns group.now other.now }
{
    group.table() == other.table() && group.schema() != other.schema()
}
