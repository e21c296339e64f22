//! Buffers and changesets as bytes.
ghost use Rattle.std.specs.Prelude.{◌≡◌, List, IfOk};
ghost use Rattle.std.specs.Option.{option_map};
ghost use Rattle.cap_value.specs.Memory.{LeavesUnlessMemory, RefusesFirst, ShowsUnlessMemory};
ghost use Rattle.cap_changes.specs.Group.{TableChanges};
ghost use Rattle.cap_codec.specs.Changeset.{list_bytes_with};
ghost use Rattle.cap_codec.specs.FirstByte.{first_fault};
ghost use Rattle.cap_codec.specs.Spelling.{Spells};
ghost use Rattle.cap_codec.specs.declared.read.Contents.TheVariants.{Changes};
ghost use Rattle.cap_rebase.specs.Buffer as buffer;
ghost use Rattle.cap_rebase.specs.Bytes.{buffer_at, changes_at, configured_at, numbered, rebase_at};
ghost use Rattle.cap_rebase.specs.Bytes.{rebased_at};
ghost use Rattle.cap_rebase.specs.declared.refusal.BlobRefusal.TheVariants.{Malformed};

use crate::{BlobRefusal, NumberedRefusal, Rebaser, buffer_of};
use cap_apply::Conflict;
use cap_changes::ChangeList;
use cap_codec::{Contents, KeyFlags, read_blob, write_changes_with};
use cap_value::{AllocHandle, Fault};

/// The bytes of the buffer of an application of the changeset with these bytes, as `buffer_of` makes it.
///
/// Refused with `Malformed` where the bytes are no blob, and with `Patchset` where they are a patchset.
pub fn buffer_bytes<A: AllocHandle>(
    alloc: A,
    key_flags: KeyFlags,
    bytes: &[u8],
    conflicts: &[Conflict],
) -> Result<Vec<u8, A>, Fault<BlobRefusal>>
    // The buffer of the list that the bytes spell is written.
    ensures buffer { IfOk result (λ out. (list : List (TableChanges A)) × Spells (Changes list) bytes.now
        × (out.items ≡ list_bytes_with key_flags (buffer.buffer_of list conflicts.now))) }
    // Which bytes, or which refusal.
    ensures answers { ShowsUnlessMemory (λ out. out.items) result
        (buffer_at A key_flags bytes.now conflicts.now) }
    // A first byte that begins no group is refused without memory.
    ensures first { RefusesFirst (option_map Malformed (first_fault bytes.now)) result }
{
    let list = read_changes(alloc, bytes)?;
    let buffer = buffer_of(alloc, &list, conflicts)?;
    Ok(write_changes_with(alloc, key_flags, &buffer)?)
}

/// The bytes of a changeset over buffers, written with these key flags. The buffers are blobs, one behind the
/// other in the order of the applications, as `Rebaser::configure_bytes` takes one.
///
/// The refusal has the number 1 where it is the buffers', and else 0.
pub fn rebase_bytes<A: AllocHandle>(
    alloc: A,
    key_flags: KeyFlags,
    changeset: &[u8],
    buffers: &[u8],
) -> Result<Vec<u8, A>, Fault<NumberedRefusal>>
    // Which bytes, or which refusal.
    ensures answers { ShowsUnlessMemory (λ out. out.items) result
        (rebase_at A key_flags changeset.now buffers.now) }
    // A first byte of the buffers that begins no group is refused without memory.
    ensures first { RefusesFirst (option_map (λ fault. record { blob = 1; why = Malformed fault })
        (first_fault buffers.now)) result }
{
    let mut rebaser = Rebaser::new(alloc);
    configure(&mut rebaser, buffers)?;
    rebase(&rebaser, key_flags, changeset)
}

// The rebaser with the buffers.
fn configure<A: AllocHandle>(
    rebaser: &mut Rebaser<A>,
    buffers: &[u8],
) -> Result<(), Fault<NumberedRefusal>>
    ensures content { LeavesUnlessMemory result (numbered 1 (configured_at rebaser.old buffers.now))
        rebaser.new }
    ensures first { RefusesFirst (option_map (λ fault. record { blob = 1; why = Malformed fault })
        (first_fault buffers.now)) result }
{
    match rebaser.configure_bytes(buffers) {
        Ok(()) => Ok(()),
        Err(Fault::Refused(why)) => Err(Fault::Refused(NumberedRefusal { blob: 1, why })),
        Err(Fault::OutOfMemory) => Err(Fault::OutOfMemory),
    }
}

// The changeset over its buffers.
fn rebase<A: AllocHandle>(
    rebaser: &Rebaser<A>,
    key_flags: KeyFlags,
    changeset: &[u8],
) -> Result<Vec<u8, A>, Fault<NumberedRefusal>>
    ensures { ShowsUnlessMemory (λ out. out.items) result
        (numbered 0 (rebased_at key_flags rebaser.now changeset.now)) }
{
    match rebaser.rebase_bytes(key_flags, changeset) {
        Ok(bytes) => Ok(bytes),
        Err(Fault::Refused(why)) => Err(Fault::Refused(NumberedRefusal { blob: 0, why })),
        Err(Fault::OutOfMemory) => Err(Fault::OutOfMemory),
    }
}

// The changeset with these bytes.
pub(crate) fn read_changes<A: AllocHandle>(
    alloc: A,
    bytes: &[u8],
) -> Result<ChangeList<A>, Fault<BlobRefusal>>
    ensures spelled { IfOk result (λ list. Spells (Changes list) bytes.now) }
    ensures answers { ShowsUnlessMemory (λ list. list) result (changes_at A bytes.now) }
    ensures first { RefusesFirst (option_map Malformed (first_fault bytes.now)) result }
{
    match read_blob(alloc, bytes) {
        Ok(Contents::Changes(list)) => Ok(list),
        Ok(Contents::Patches(_)) => Err(Fault::Refused(BlobRefusal::Patchset)),
        Err(Fault::Refused(why)) => Err(Fault::Refused(BlobRefusal::Malformed(why))),
        Err(Fault::OutOfMemory) => Err(Fault::OutOfMemory),
    }
}
