//! The concatenation of blobs, from bytes to bytes.
ghost use Rattle.std.specs.Prelude.{◌≡◌, IfOk, List, Ok, OnOk, map};
ghost use Rattle.std.specs.List.{AllZip};
ghost use Rattle.cap_value.specs.Memory.{LeavesUnlessMemory, ShowsUnlessMemory};
ghost use Rattle.cap_codec.specs.Spelling.{Spells};
ghost use Rattle.cap_codec.specs.Writable.{blob_bytes_with};
ghost use Rattle.cap_codec.specs.declared.read.Contents.{Contents};
ghost use Rattle.cap_group.specs.Bytes.{all_bytes_added, concat_at};
ghost use Rattle.cap_group.specs.ChangeGroup.{all_added, concat_of};

use crate::{ChangeGroup, ConcatRefusal};
use cap_codec::KeyFlags;
use cap_value::{AllocHandle, Fault};

/// The bytes of the concatenation of blobs, written with these key flags (The Session Extension,
/// "sqlite3changeset_concat"). Without blobs there are none.
///
/// Refused at the first blob that `ChangeGroup::add_bytes` refuses.
pub fn concat_bytes<A: AllocHandle>(
    alloc: A,
    key_flags: KeyFlags,
    blobs: &[&[u8]],
) -> Result<Vec<u8, A>, Fault<ConcatRefusal>>
    // The concatenation of the lists that the blobs spell is written.
    ensures concatenation { IfOk result (λ out. (lists : List (Contents A)) × (joined : Contents A)
        × AllZip Spells lists (map (λ bytes. bytes.now) blobs.now)
        × (concat_of lists ≡ Ok joined) × (out.items ≡ blob_bytes_with key_flags joined)) }
    // Which bytes, or which refusal.
    ensures answers { ShowsUnlessMemory (λ out. out.items) result
        (concat_at A key_flags (map (λ bytes. bytes.now) blobs.now)) }
{
    let mut group = ChangeGroup::new(alloc);
    add_all_bytes(&mut group, blobs)?;
    Ok(group.bytes(key_flags)?)
}

// Adds blobs, one after the other.
fn add_all_bytes<A: AllocHandle>(
    group: &mut ChangeGroup<A>,
    blobs: &[&[u8]],
) -> Result<(), Fault<ConcatRefusal>>
    ensures spelled { OnOk result ((lists : List (Contents A))
        × AllZip Spells lists (map (λ bytes. bytes.now) blobs.now)
        × (all_added group.old lists ≡ Ok group.new)) }
    ensures content { LeavesUnlessMemory result
        (all_bytes_added 0 group.old (map (λ bytes. bytes.now) blobs.now)) group.new }
{
    for blob in 0..blobs.len() {
        match group.add_bytes(blobs[blob]) {
            Ok(()) => {}
            Err(Fault::Refused(why)) => return Err(Fault::Refused(ConcatRefusal { blob, why })),
            Err(Fault::OutOfMemory) => return Err(Fault::OutOfMemory),
        }
    }
    Ok(())
}
