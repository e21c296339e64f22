//! Decoding of changesets and patchsets.

ghost use Rattle.std.specs.Prelude.{◌≡◌, length, Ok, IfOk};
ghost use Rattle.cap_value.specs.Memory.{AnswersUnlessMemory, RefusesFirst, ShowsUnlessMemory};
ghost use Rattle.cap_codec.specs.declared.read.Contents.{Contents as Spelled};
ghost use Rattle.cap_codec.specs.BlobReading as blob;
ghost use Rattle.cap_codec.specs.BlobReading.{entries_at, groups_at, blob_at};
ghost use Rattle.cap_codec.specs.FirstByte.{first_fault};
ghost use Rattle.cap_codec.specs.Spelling.{Spells};

use crate::group::take_group;
use crate::header::fault;
use cap_changes::{CHANGESET_KIND, ChangeList, Entry, GroupList, PATCHSET_KIND, PatchList};
use cap_field::{BlobFault, FaultKind, place_of};
use cap_value::{AllocHandle, Fault};

/// The contents of a blob.
#[derive(Drop)]
pub enum Contents<A: AllocHandle> {
    /// A changeset. An empty blob is the empty changeset.
    Changes(ChangeList<A>),
    /// A patchset.
    Patches(PatchList<A>),
}

/// The fault of a byte that neither continues a group nor begins one of the blob's kind.
pub fn wrong_kind(kind: u8, at: usize) -> BlobFault
    ensures { result ≡ blob.wrong_kind kind at }
{
    if kind == CHANGESET_KIND || kind == PATCHSET_KIND {
        fault(at, FaultKind::Mixed)
    } else {
        fault(at, FaultKind::BadOp)
    }
}

#[tactic(auto, using(crate::proofs::Left::groups_start, crate::proofs::Left::groups_stop, crate::proofs::Left::groups_next, std::proofs::lemmas::Bool::Decides::nat_tests))]
fn take_groups<C: Entry + Drop, A: AllocHandle>(
    alloc: A,
    total: usize,
    bytes: &[u8],
) -> Result<GroupList<C, A>, Fault<BlobFault>>
    ensures { ShowsUnlessMemory (λ list. list) result
        (groups_at (entries_at C.one_at) C.kind (length bytes.now) total bytes.now) }
{
    let mut list = GroupList::new(alloc);
    let mut rest = bytes;
    while let [kind, behind @ ..] = rest {
        if *kind != C::kind() {
            return Err(Fault::Refused(wrong_kind(*kind, place_of(total, rest))));
        }
        let (group, after) = take_group::<C, A>(alloc, total, behind)?;
        list.push(group)?;
        rest = after;
    }
    Ok(list)
}

#[tactic(auto, using(crate::proofs::Left::first_is), unfolding(crate::specs::BlobReading::blob_at))]
fn take_blob<A: AllocHandle>(alloc: A, bytes: &[u8]) -> Result<Contents<A>, Fault<BlobFault>>
    ensures answers { AnswersUnlessMemory result (blob_at bytes.now) }
    ensures first { RefusesFirst (first_fault bytes.now) result }
{
    match bytes {
        [] => Ok(Contents::Changes(ChangeList::new(alloc))),
        [CHANGESET_KIND, ..] => Ok(Contents::Changes(take_groups(alloc, bytes.len(), bytes)?)),
        [PATCHSET_KIND, ..] => Ok(Contents::Patches(take_groups(alloc, bytes.len(), bytes)?)),
        _ => Err(Fault::Refused(fault(0, FaultKind::BadHeader))),
    }
}

/// Decodes a whole blob, a changeset or a patchset, written by this program or another. Refused with the
/// first fault from left to right where it is malformed.
#[tactic(auto, using(crate::proofs::BlobAgain::blob_again))]
pub fn read_blob<A: AllocHandle>(alloc: A, bytes: &[u8]) -> Result<Contents<A>, Fault<BlobFault>>
    // The bytes, all of them, spell what is read.
    ensures spelled { IfOk result (λ blob. Spells blob bytes.now) }
    // What the bytes spell is read, without a fault.
    ensures read { (blob : Spelled A) → Spells blob bytes.now → AnswersUnlessMemory result (Ok blob) }
    // Which contents, or which fault.
    ensures answers { AnswersUnlessMemory result (blob_at bytes.now) }
    // A first byte that begins no group is refused without memory.
    ensures first { RefusesFirst (first_fault bytes.now) result }
{
    take_blob(alloc, bytes)
}
