//! The changes of a group over all buffered changes of their rows.
ghost use Rattle.std.specs.Prelude.{◌≡◌, ◌∷◌, ◌&&◌, [], Some, filter, flat_map, IfOk, IfSome, IsTrue};
ghost use Rattle.cap_changes.specs.Entries.{AllFit};
ghost use Rattle.cap_changes.specs.Fits.{change_fits};
ghost use Rattle.cap_row.specs.Schema.{flags_eq};
ghost use Rattle.cap_value.specs.Bytes.{bytes_eq};
ghost use Rattle.cap_rebase.specs.Flag as flag;
ghost use Rattle.cap_rebase.specs.Rebase.{rebased_next, rebased_over};
ghost use Rattle.cap_rebase.specs.Rebaser as rebaser;

use crate::ChangeLeft;
use crate::change::{are_of_one_row, rebase_change};
use crate::push::push_change;
use cap_changes::{ChangeList, Entries, EntryRef, Group, RowChange};
use cap_row::Schema;
use cap_value::{AllocHandle, OutOfMemory};

// The group with each change over all buffered changes of its row, without those of which nothing is left.
pub(crate) fn rebased_group<A: AllocHandle>(
    alloc: A,
    buffers: &[ChangeList<A>],
    group: &Group<A>,
) -> Result<Group<A>, OutOfMemory>
    ensures { IfOk result (λ rebased. rebased ≡ rebaser.rebased_group buffers.now group.now) }
{
    let mut rebased = Group::new(alloc, group.table().copy()?, group.schema().copy()?);
    for local in group.changes() {
        push_change(&mut rebased, &rebased_in(alloc, buffers, group, &local)?)?;
    }
    Ok(rebased)
}

// A change of a group over all buffered changes of its row.
fn rebased_in<'s, A: AllocHandle>(
    alloc: A,
    buffers: &[ChangeList<A>],
    group: &'s Group<A>,
    local: &EntryRef<'_, RowChange<A>>,
) -> Result<ChangeLeft<'s, A>, OutOfMemory>
    requires { IsTrue (change_fits group.now.schema local.now) }
    ensures change { IfOk result (λ change. change ≡ rebaser.rebased_in buffers.now group.now local.now) }
    ensures fits { IfOk result (λ change. IfSome change
        (λ one. IsTrue (change_fits group.now.schema one))) }
{
    let mut left = ChangeLeft::all(alloc, group.schema().flags(), local)?;
    for buffer in buffers {
        left = over_groups(alloc, group, local, left, buffer.groups())?;
    }
    Ok(left)
}

// What is left of a local change, over the changes of its row in these groups.
fn over_groups<'s, A: AllocHandle>(
    alloc: A,
    group: &'s Group<A>,
    local: &EntryRef<'_, RowChange<A>>,
    first: ChangeLeft<'s, A>,
    groups: &[Group<A>],
) -> Result<ChangeLeft<'s, A>, OutOfMemory>
    requires { IfSome first (λ one. IsTrue (change_fits group.now.schema one)) }
    ensures change { IfOk result (λ change. change ≡ rebased_over group.now.schema first.entry
        (flat_map (rebaser.of_its_row group.now local.now) groups.now)) }
    ensures fits { IfOk result (λ change. IfSome change
        (λ one. IsTrue (change_fits group.now.schema one))) }
{
    let mut left = first;
    for other in groups {
        left = over_group(alloc, group, local, left, other)?;
    }
    Ok(left)
}

// The same over the changes of one group, where it is of the same table.
fn over_group<'s, A: AllocHandle>(
    alloc: A,
    group: &'s Group<A>,
    local: &EntryRef<'_, RowChange<A>>,
    left: ChangeLeft<'s, A>,
    other: &Group<A>,
) -> Result<ChangeLeft<'s, A>, OutOfMemory>
    requires { IfSome left (λ one. IsTrue (change_fits group.now.schema one)) }
    ensures change { IfOk result (λ change. change ≡ rebased_over group.now.schema left.entry
        (rebaser.of_its_row group.now local.now other.now)) }
    ensures fits { IfOk result (λ change. IfSome change
        (λ one. IsTrue (change_fits group.now.schema one))) }
{
    if is_same_table(group, other) {
        over_changes(alloc, group.schema(), local, left, other.changes())
    } else {
        Ok(left)
    }
}

// Whether both groups are of one table with the same columns, which the changes of either then fit.
fn is_same_table<A: AllocHandle>(group: &Group<A>, other: &Group<A>) -> bool
    ensures same { result ≡ (bytes_eq group.now.table other.now.table
        && flags_eq group.now.schema other.now.schema) }
    ensures fit { IsTrue result → AllFit change_fits group.now.schema other.now.changes }
{
    group.table() == other.table() && have_same_columns(group, other)
}

fn have_same_columns<A: AllocHandle>(group: &Group<A>, other: &Group<A>) -> bool
    ensures same { result ≡ flags_eq group.now.schema other.now.schema }
    ensures fit { IsTrue result → AllFit change_fits group.now.schema other.now.changes }
{
    // For the proof: a clause of `changes` says that they fit the columns of their group.
    let _changes = other.changes();
    group.schema() == other.schema()
}

// The same over those of these changes that are of its row.
fn over_changes<'s, A: AllocHandle>(
    alloc: A,
    schema: &'s Schema<A>,
    local: &EntryRef<'_, RowChange<A>>,
    first: ChangeLeft<'s, A>,
    remotes: Entries<'_, RowChange<A>>,
) -> Result<ChangeLeft<'s, A>, OutOfMemory>
    requires remotes_fit { AllFit change_fits schema.now remotes }
    requires left_fits { IfSome first (λ one. IsTrue (change_fits schema.now one)) }
    ensures change { IfOk result (λ change. change ≡ rebased_over schema.now first.entry
        (filter (flag.are_of_one_row schema.now local.now) remotes.entry)) }
    ensures fits { IfOk result (λ change. IfSome change
        (λ one. IsTrue (change_fits schema.now one))) }
{
    let mut left = first;
    for remote in remotes {
        left = over_its_row(alloc, schema, local, left, &remote)?;
    }
    Ok(left)
}

// The same over this change, where it is of its row.
fn over_its_row<'s, A: AllocHandle>(
    alloc: A,
    schema: &'s Schema<A>,
    local: &EntryRef<'_, RowChange<A>>,
    left: ChangeLeft<'s, A>,
    remote: &EntryRef<'_, RowChange<A>>,
) -> Result<ChangeLeft<'s, A>, OutOfMemory>
    requires remote_fits { IsTrue (change_fits schema.now remote.now) }
    requires left_fits { IfSome left (λ one. IsTrue (change_fits schema.now one)) }
    ensures change { IfOk result (λ change. change ≡ rebased_over schema.now left.entry
        (filter (flag.are_of_one_row schema.now local.now) (remote.now ∷ []))) }
    ensures fits { IfOk result (λ change. IfSome change
        (λ one. IsTrue (change_fits schema.now one))) }
{
    if are_of_one_row(schema, local, remote) {
        over_change(alloc, schema, left, remote)
    } else {
        Ok(left)
    }
}

fn over_change<'s, A: AllocHandle>(
    alloc: A,
    schema: &'s Schema<A>,
    left: ChangeLeft<'s, A>,
    remote: &EntryRef<'_, RowChange<A>>,
) -> Result<ChangeLeft<'s, A>, OutOfMemory>
    requires remote_fits { IsTrue (change_fits schema.now remote.now) }
    requires left_fits { IfSome left (λ one. IsTrue (change_fits schema.now one)) }
    ensures change { IfOk result (λ change. change ≡ rebased_next schema.now left.entry remote.now) }
    ensures fits { IfOk result (λ change. IfSome change
        (λ one. IsTrue (change_fits schema.now one))) }
{
    match left.get() {
        None => Ok(ChangeLeft::nothing(alloc, schema.flags())),
        Some(local) => rebase_change(alloc, schema, remote, &local),
    }
}
