//! One local change over one remote change of its row.
ghost use Rattle.std.specs.Prelude.{◌≡◌, Bool, List, Some, IfOk, IfSome, IsTrue};
ghost use Rattle.std.specs.Option.{option_map};
ghost use Rattle.cap_changes.specs.ChangeRef.{change_of};
ghost use Rattle.cap_changes.specs.FieldRecord.{RecordFields};
ghost use Rattle.cap_changes.specs.Fits.{change_fits};
ghost use Rattle.cap_changes.specs.declared.row_change.RowChange.TheVariants.{Insert, Update, Delete};
ghost use Rattle.cap_group.specs.Combined.{combined};
ghost use Rattle.cap_group.specs.Put.{IsPut};
ghost use Rattle.cap_group.specs.Rows.{is_indirect};
ghost use Rattle.cap_rebase.specs.Flag as flag;
ghost use Rattle.cap_rebase.specs.Rebase as rebase;

use crate::ChangeLeft;
use crate::record::{have_one_key, push_update_left};
use cap_changes::{
    ChangeRef, EntryRef, FieldRecord, Operation, RecordRef, RowChange, push_operation, push_record,
};
use cap_group::{RecordOver, push_over, push_update_between};
use cap_row::Schema;
use cap_value::{AllocHandle, OutOfMemory};

/// What becomes of a local change over a remote change of its row that met a conflict. The remote change has
/// its answer in the place of its indirect flag: set for REPLACE, and not for OMIT (The Session Extension,
/// "Rebasing changesets"). Nothing may be left of the local change.
pub fn rebase_change<'s, A: AllocHandle>(
    alloc: A,
    schema: &'s Schema<A>,
    remote: &EntryRef<'_, RowChange<A>>,
    local: &EntryRef<'_, RowChange<A>>,
) -> Result<ChangeLeft<'s, A>, OutOfMemory>
    requires remote_fits { IsTrue (change_fits schema.now remote.now) }
    requires local_fits { IsTrue (change_fits schema.now local.now) }
    ensures change { IfOk result (λ change. change ≡ rebase.rebased schema.now remote.now local.now) }
    ensures fits { IfOk result (λ change. IfSome change (λ one. IsTrue (change_fits schema.now one))) }
{
    // For the proof: a clause of `as_bytes` says that the fields are values.
    let _remote = remote.as_bytes();
    let _local = local.as_bytes();
    let flags = schema.flags();
    let mut bytes = Vec::new(alloc);
    push_rebased(&mut bytes, flags, remote, local)?;
    Ok(ChangeLeft::of(flags, bytes))
}

// Appends what becomes of the local change, and answers whether anything does. So do all below.
fn push_rebased<A: AllocHandle>(
    out: &mut Vec<u8, A>,
    flags: &[bool],
    remote: &EntryRef<'_, RowChange<A>>,
    local: &EntryRef<'_, RowChange<A>>,
) -> Result<bool, OutOfMemory>
    ensures { IfOk result (λ some. IsPut some out.old.items out.new.items
        (rebase.rebased flags.now remote.now local.now)) }
{
    if is_indirect(&remote.read()) {
        over_replaced(out, flags, remote, local)
    } else {
        over_omitted(out, flags, remote, local)
    }
}

fn over_omitted<A: AllocHandle>(
    out: &mut Vec<u8, A>,
    flags: &[bool],
    remote: &EntryRef<'_, RowChange<A>>,
    local: &EntryRef<'_, RowChange<A>>,
) -> Result<bool, OutOfMemory>
    ensures { IfOk result (λ some. IsPut some out.old.items out.new.items
        (rebase.over_omitted flags.now remote.now local.now)) }
{
    match remote.read() {
        ChangeRef::Insert { new, .. } => after_deleted(out, flags, new, local.read()),
        ChangeRef::Update { old, new, .. } => {
            let alloc = *out.allocator();
            let before = FieldRecord::of_update(alloc, flags, old.copy(), new.copy())?;
            let after = FieldRecord::of_update(alloc, flags, new, old)?;
            after_updated(out, flags, before.fields(), after.fields(), local.read())
        }
        ChangeRef::Delete { old, .. } => after_inserted(out, old, local.read()),
    }
}

// A row is deleted, and then the local change is made.
fn after_deleted<A: AllocHandle>(
    out: &mut Vec<u8, A>,
    flags: &[bool],
    old: RecordRef<'_, A>,
    local: ChangeRef<'_, A>,
) -> Result<bool, OutOfMemory>
    ensures { (answer : Bool) → IfOk result (λ some. IsPut some out.old.items out.new.items
        (option_map (flag.flagged (is_indirect (change_of local.entry)))
        (combined flags.now (Delete answer old.entry) (change_of local.entry)))) }
{
    match local {
        ChangeRef::Insert { indirect, new } => {
            let first = RecordOver::alone(old);
            let last = RecordOver::alone(new);
            push_update_between(out, flags, indirect, &first, &last)
        }
        ChangeRef::Update { indirect, .. } => push_delete(out, indirect, RecordOver::alone(old)),
        ChangeRef::Delete { indirect, .. } => push_delete(out, indirect, RecordOver::alone(old)),
    }
}

// A row is updated, and then the local change is made.
fn after_updated<A: AllocHandle>(
    out: &mut Vec<u8, A>,
    flags: &[bool],
    old: RecordRef<'_, A>,
    new: RecordRef<'_, A>,
    local: ChangeRef<'_, A>,
) -> Result<bool, OutOfMemory>
    ensures { (answer : Bool) → IfOk result (λ some. IsPut some out.old.items out.new.items
        (option_map (flag.flagged (is_indirect (change_of local.entry)))
        (combined flags.now (Update answer old.entry new.entry) (change_of local.entry)))) }
{
    match local {
        ChangeRef::Insert { indirect, .. } => push_update(out, indirect, old, new),
        ChangeRef::Update {
            indirect,
            old: then,
            new: last,
        } => {
            let first = RecordOver::new(then, old);
            let last = RecordOver::new(new, last);
            push_update_between(out, flags, indirect, &first, &last)
        }
        ChangeRef::Delete {
            indirect,
            old: then,
        } => push_delete(out, indirect, RecordOver::new(then, old)),
    }
}

// Appends an insert of this row.
fn push_insert<A: AllocHandle>(
    out: &mut Vec<u8, A>,
    indirect: bool,
    new: RecordOver<'_, A>,
) -> Result<bool, OutOfMemory>
    ensures { IfOk result (λ some. IsPut some out.old.items out.new.items
        (Some (Insert indirect new.entry))) }
{
    push_operation(out, Operation::Insert, indirect)?;
    push_over(out, new)?;
    Ok(true)
}

// Appends a delete of this row.
fn push_delete<A: AllocHandle>(
    out: &mut Vec<u8, A>,
    indirect: bool,
    old: RecordOver<'_, A>,
) -> Result<bool, OutOfMemory>
    ensures { IfOk result (λ some. IsPut some out.old.items out.new.items
        (Some (Delete indirect old.entry))) }
{
    push_operation(out, Operation::Delete, indirect)?;
    push_over(out, old)?;
    Ok(true)
}

// Appends an update with these records.
fn push_update<A: AllocHandle>(
    out: &mut Vec<u8, A>,
    indirect: bool,
    old: RecordRef<'_, A>,
    new: RecordRef<'_, A>,
) -> Result<bool, OutOfMemory>
    ensures { IfOk result (λ some. IsPut some out.old.items out.new.items
        (Some (Update indirect old.entry new.entry))) }
{
    push_operation(out, Operation::Update, indirect)?;
    push_record(out, old)?;
    push_record(out, new)?;
    Ok(true)
}

// A row is inserted, and then the local change is made.
fn after_inserted<A: AllocHandle>(
    out: &mut Vec<u8, A>,
    new: RecordRef<'_, A>,
    local: ChangeRef<'_, A>,
) -> Result<bool, OutOfMemory>
    ensures { (answer : Bool) (flags : List Bool) → IfOk result (λ some.
        IsPut some out.old.items out.new.items
        (option_map (flag.flagged (is_indirect (change_of local.entry)))
        (combined flags (Insert answer new.entry) (change_of local.entry)))) }
{
    match local {
        ChangeRef::Insert { indirect, .. } => push_insert(out, indirect, RecordOver::alone(new)),
        ChangeRef::Update {
            indirect,
            new: last,
            ..
        } => push_insert(out, indirect, RecordOver::new(new, last)),
        ChangeRef::Delete { .. } => Ok(false),
    }
}

fn over_replaced<A: AllocHandle>(
    out: &mut Vec<u8, A>,
    flags: &[bool],
    remote: &EntryRef<'_, RowChange<A>>,
    local: &EntryRef<'_, RowChange<A>>,
) -> Result<bool, OutOfMemory>
    ensures { IfOk result (λ some. IsPut some out.old.items out.new.items
        (rebase.over_replaced flags.now remote.now local.now)) }
{
    match remote.read() {
        ChangeRef::Update { new, .. } => without_columns_of(out, flags, new, local.read()),
        _ => Ok(false),
    }
}

// What is left of a local change beside an update with these new fields.
fn without_columns_of<A: AllocHandle>(
    out: &mut Vec<u8, A>,
    flags: &[bool],
    remote: RecordRef<'_, A>,
    local: ChangeRef<'_, A>,
) -> Result<bool, OutOfMemory>
    ensures { (answer : Bool) (old : RecordFields A) → IfOk result (λ some.
        IsPut some out.old.items out.new.items
        (rebase.over_replaced flags.now (Update answer old remote.entry) (change_of local.entry))) }
{
    match local {
        ChangeRef::Update { indirect, old, new } => {
            push_update_left(out, flags, indirect, &old, &new, &remote)
        }
        ChangeRef::Insert { .. } => Ok(false),
        ChangeRef::Delete { .. } => Ok(false),
    }
}

// Appends the change with this indirect flag.
pub(crate) fn push_flagged<A: AllocHandle>(
    out: &mut Vec<u8, A>,
    indirect: bool,
    change: ChangeRef<'_, A>,
) -> Result<bool, OutOfMemory>
    ensures { IfOk result (λ some. IsPut some out.old.items out.new.items
        (Some (flag.flagged indirect (change_of change.entry)))) }
{
    match change {
        ChangeRef::Insert { new, .. } => push_insert(out, indirect, RecordOver::alone(new)),
        ChangeRef::Update { old, new, .. } => push_update(out, indirect, old, new),
        ChangeRef::Delete { old, .. } => push_delete(out, indirect, RecordOver::alone(old)),
    }
}

// Whether its indirect flag is set.
fn is_indirect<A: AllocHandle>(change: &ChangeRef<'_, A>) -> bool
    ensures { result ≡ is_indirect (change_of change.now) }
{
    match change {
        ChangeRef::Insert { indirect, .. } => *indirect,
        ChangeRef::Update { indirect, .. } => *indirect,
        ChangeRef::Delete { indirect, .. } => *indirect,
    }
}

// Whether both are of one row.
pub(crate) fn are_of_one_row<A: AllocHandle>(
    schema: &Schema<A>,
    left: &EntryRef<'_, RowChange<A>>,
    right: &EntryRef<'_, RowChange<A>>,
) -> bool
    ensures { result ≡ flag.are_of_one_row schema.now left.now right.now }
{
    have_one_key(schema.flags(), key_record(left), key_record(right))
}

fn key_record<'a, A: AllocHandle>(change: &EntryRef<'a, RowChange<A>>) -> RecordRef<'a, A>
    ensures { result ≡ flag.key_record change.now }
{
    match change.read() {
        ChangeRef::Insert { new, .. } => new,
        ChangeRef::Update { old, .. } => old,
        ChangeRef::Delete { old, .. } => old,
    }
}
