//! The buffer of an application.
ghost use Rattle.std.specs.Prelude.{◌≡◌, IfOk, IfSome, IsTrue};
ghost use Rattle.cap_changes.specs.Fits.{change_fits};
ghost use Rattle.cap_rebase.specs.Buffer as buffer;

use crate::ChangeLeft;
use crate::push::{push_change, push_group};
use cap_apply::{Answer, Conflict};
use cap_changes::{ChangeList, EntryRef, Group, RowChange};
use cap_value::{AllocHandle, OutOfMemory};

/// The buffer of an application of a changeset: its changes that met a conflict, by the conflicts of the
/// report, each with its answer in the place of the indirect flag, set for REPLACE and not for OMIT (The
/// Session Extension, "sqlite3changeset_apply_v2"). Groups without a conflict are left out.
pub fn buffer_of<A: AllocHandle>(
    alloc: A,
    list: &ChangeList<A>,
    conflicts: &[Conflict],
) -> Result<ChangeList<A>, OutOfMemory>
    ensures { IfOk result (λ made. made ≡ buffer.buffer_of list.now conflicts.now) }
{
    let mut made = ChangeList::new(alloc);
    let mut first = 0u64;
    for group in list.groups() {
        // No memory holds a list with this many changes.
        let Some(next) = first.checked_add(group.changes().len() as u64) else {
            return Err(OutOfMemory);
        };
        push_group(&mut made, group_met(alloc, first, conflicts, group)?)?;
        first = next;
    }
    Ok(made)
}

// The changes of a group that met a conflict, where its first change has this number.
fn group_met<A: AllocHandle>(
    alloc: A,
    first: u64,
    conflicts: &[Conflict],
    group: &Group<A>,
) -> Result<Group<A>, OutOfMemory>
    ensures { IfOk result (λ met. met ≡ buffer.group_met first conflicts.now group.now) }
{
    let mut met = Group::new(alloc, group.table().copy()?, group.schema().copy()?);
    for conflict in conflicts {
        push_change(&mut met, &met_in(alloc, first, group, conflict)?)?;
    }
    Ok(met)
}

// The change of a group that met the conflict.
fn met_in<'s, A: AllocHandle>(
    alloc: A,
    first: u64,
    group: &'s Group<A>,
    conflict: &Conflict,
) -> Result<ChangeLeft<'s, A>, OutOfMemory>
    ensures change { IfOk result (λ change. change ≡ buffer.met first group.now.changes conflict.now) }
    ensures fits { IfOk result (λ change. IfSome change
        (λ one. IsTrue (change_fits group.now.schema one))) }
{
    let flags = group.schema().flags();
    if conflict.change < first {
        return Ok(ChangeLeft::nothing(alloc, flags));
    }
    let place = conflict.change - first;
    let changes = group.changes();
    if place >= changes.len() as u64 {
        return Ok(ChangeLeft::nothing(alloc, flags));
    }
    match changes.get(place as usize) {
        Some(change) => answered(alloc, flags, conflict.answer, &change),
        None => Ok(ChangeLeft::nothing(alloc, flags)),
    }
}

// The change with the answer in the place of its indirect flag.
fn answered<'s, A: AllocHandle>(
    alloc: A,
    flags: &'s [bool],
    answer: Answer,
    change: &EntryRef<'_, RowChange<A>>,
) -> Result<ChangeLeft<'s, A>, OutOfMemory>
    requires { IsTrue (change_fits flags.now change.now) }
    ensures change { IfOk result (λ made. made ≡ buffer.answered answer change.now) }
    ensures fits { IfOk result (λ made. IfSome made (λ one. IsTrue (change_fits flags.now one))) }
{
    match answer {
        Answer::Omit => ChangeLeft::flagged(alloc, flags, false, change),
        Answer::Replace => ChangeLeft::flagged(alloc, flags, true, change),
        Answer::Abort => Ok(ChangeLeft::nothing(alloc, flags)),
    }
}
