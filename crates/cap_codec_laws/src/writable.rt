//! Laws of lists of changes: each can be written and is read again. They do nothing but visit each group.

ghost use Rattle.std.specs.Prelude.{◌≡◌, Ok, All};
ghost use Rattle.cap_codec.specs.declared.read.Contents.TheVariants as kinds;
ghost use Rattle.cap_codec.specs.BlobReading.{blob_at};
ghost use Rattle.cap_codec.specs.Changeset.{list_bytes};
ghost use Rattle.cap_codec.specs.Patchset.{patch_list_bytes};
ghost use Rattle.cap_codec.specs.Writable.{IsGroupOf, IsWritable, with_some};

use cap_changes::{ChangeList, Entry, GroupList, PatchList, TableGroup};
use cap_value::AllocHandle;

fn is_group<C: Entry, A: AllocHandle>(group: &TableGroup<C, A>)
    ensures { IsGroupOf C.fits_in C.has_values group.now }
{
    let _name = group.table().as_str();
    let _flags = group.schema().flags();
    let _changes = group.changes();
}

fn are_groups<C: Entry, A: AllocHandle>(list: &GroupList<C, A>)
    ensures { All (IsGroupOf C.fits_in C.has_values) list.now }
{
    for group in list.groups() {
        is_group(group);
    }
}

/// A law: a list of changes can be written, and is read again as it was, without its empty groups. At run
/// time it only visits each group.
#[tactic(auto, using(crate::proofs::WrittenLemmas::changes_again))]
pub fn changes_are_writable<A: AllocHandle>(list: &ChangeList<A>)
    ensures writable { IsWritable (kinds.Changes list.now) }
    ensures again { blob_at (list_bytes list.now) ≡ Ok (with_some (kinds.Changes list.now)) }
{
    are_groups(list);
}

/// The same for a patchset. One without changes is read as the empty changeset.
#[tactic(auto, using(crate::proofs::WrittenLemmas::patches_again))]
pub fn patches_are_writable<A: AllocHandle>(list: &PatchList<A>)
    ensures writable { IsWritable (kinds.Patches list.now) }
    ensures again { blob_at (patch_list_bytes list.now) ≡ Ok (with_some (kinds.Patches list.now)) }
{
    are_groups(list);
}
