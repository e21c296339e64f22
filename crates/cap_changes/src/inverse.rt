//! The inverse of a changeset.
ghost use Rattle.std.specs.Prelude.{◌≡◌, map, IfOk, OnOk, OnErr};
ghost use Rattle.cap_changes.specs.ChangeBytes.{change_bytes};
ghost use Rattle.cap_changes.specs.ChangeReading.{stored_change};
ghost use Rattle.cap_changes.specs.Fits.{change_fits};
ghost use Rattle.cap_changes.specs.HasValues.{HasValues};
ghost use Rattle.cap_changes.specs.Invert.{inverse_of, inverse_list_of};
ghost use Rattle.cap_changes.specs.Stored.{IsEntry, IsKept, entries_of};

use crate::operation::Operation;
use crate::patches::push_update_record;
use crate::{ChangeList, ChangeRef, EntryRef, RowChange};
use cap_value::{AllocHandle, OutOfMemory};

/// The changes that undo these: a delete for each insert, an insert for each delete, and for each update one
/// with the old and the new values swapped. The order and the indirect flags stay (The Session Extension,
/// "sqlite3changeset_invert").
///
/// They are written over the list's own. Memory is taken for the records of updates alone.
pub fn invert<A: AllocHandle>(list: ChangeList<A>) -> Result<ChangeList<A>, OutOfMemory>
    ensures inverse { IfOk result (λ inverse. inverse ≡ inverse_list_of list) }
    ensures back { IfOk result (λ inverse. inverse_list_of inverse ≡ list) }
{
    // For the proof: each change fits its table.
    list.groups_fit();
    list.into_inverse()
}

/// Writes the inverse of each change over it: those before one whose memory is refused, or all.
pub(crate) fn write_inverses<A: AllocHandle>(
    alloc: A,
    flags: &[bool],
    ends: &[usize],
    bytes: &mut [u8],
) -> Result<(), OutOfMemory>
    requires { IsKept (change_fits {A = A}) HasValues change_bytes stored_change flags.now bytes.old ends.now }
    ensures kept { IsKept (change_fits {A = A}) HasValues change_bytes stored_change
        flags.now bytes.new ends.now }
    ensures inverse { OnOk result (entries_of stored_change flags.now bytes.new 0 ends.now
        ≡ map (inverse_of {A = A} flags.now) (entries_of stored_change flags.now bytes.old 0 ends.now)) }
{
    let mut records = Vec::new(alloc);
    let mut begin = 0;
    for end in ends {
        write_inverse(&mut records, flags, &mut bytes[begin..*end])?;
        begin = *end;
    }
    Ok(())
}

// Writes the inverse of a change over it. The records of an update are made in a place of their own.
#[inline(always)]
#[tactic(auto, using(crate::proofs::GroupLemmas::records_fit))]
fn write_inverse<A: AllocHandle>(
    records: &mut Vec<u8, A>,
    flags: &[bool],
    bytes: &mut [u8],
) -> Result<(), OutOfMemory>
    requires { IsEntry (change_fits {A = A}) HasValues change_bytes
        flags.now (stored_change flags.now bytes.old) bytes.old }
    ensures ok { OnOk result (bytes.new
        ≡ change_bytes (inverse_of {A = A} flags.now (stored_change flags.now bytes.old))) }
    ensures err { OnErr result (bytes.new ≡ bytes.old) }
{
    match EntryRef::<RowChange<A>>::of(flags, bytes).read() {
        ChangeRef::Insert { .. } => bytes[0] = Operation::Delete.byte(),
        ChangeRef::Update { old, new, .. } => {
            records.clear();
            push_update_record(records, flags, old.copy(), new.copy())?;
            push_update_record(records, flags, new, old)?;
            bytes[2..].copy_from_slice(records.as_slice());
        }
        ChangeRef::Delete { .. } => bytes[0] = Operation::Insert.byte(),
    }
    Ok(())
}
