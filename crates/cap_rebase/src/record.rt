//! Two records of one row: their keys, and the fields that are left of one.
ghost use Rattle.std.specs.Prelude.{◌≡◌, ◌++◌, ◌&&◌, ◌||◌, IfOk, OnOk, is_some, not};
ghost use Rattle.std.specs.List.{list_all, list_any};
ghost use Rattle.cap_changes.specs.Column.{by_column};
ghost use Rattle.cap_changes.specs.Field.{record_bytes};
ghost use Rattle.cap_changes.specs.FieldReading.{field_of};
ghost use Rattle.cap_group.specs.Put.{IsPut};
ghost use Rattle.cap_group.specs.Record as together;
ghost use Rattle.cap_rebase.specs.Rebase as rebase;
ghost use Rattle.cap_value.specs.Bytes.{bytes_eq};

use cap_changes::{Operation, RecordRef, push_operation};
use cap_field::ValueRef;
use cap_group::push_if;
use cap_value::{AllocHandle, OutOfMemory};

// Appends the update of the columns that the remote update does not modify, where there is one, and answers
// whether there is.
pub(crate) fn push_update_left<A: AllocHandle>(
    out: &mut Vec<u8, A>,
    flags: &[bool],
    indirect: bool,
    old: &RecordRef<'_, A>,
    new: &RecordRef<'_, A>,
    remote: &RecordRef<'_, A>,
) -> Result<bool, OutOfMemory>
    ensures { IfOk result (λ some. IsPut some out.old.items out.new.items
        (rebase.update_left flags.now indirect old.now (rebase.new_left new.now remote.now))) }
{
    if !has_field_left(new, remote) {
        return Ok(false);
    }
    push_operation(out, Operation::Update, indirect)?;
    push_old_left(out, flags, old, new, remote)?;
    push_new_left(out, new, remote)?;
    Ok(true)
}

// Whether a field is left: it is defined, and the remote one is not.
fn has_field_left<A: AllocHandle>(local: &RecordRef<'_, A>, remote: &RecordRef<'_, A>) -> bool
    ensures { result ≡ list_any is_some (rebase.new_left local.now remote.now) }
{
    let (mut local, mut remote) = (local.copy(), remote.copy());
    while let (Some(field), Some(other)) = (local.next_field(), remote.next_field()) {
        if is_left::<A>(field, other) {
            return true;
        }
    }
    false
}

// Whether this field is left beside the remote one.
#[inline(always)]
fn is_left<A: AllocHandle>(field: Option<ValueRef<'_>>, other: Option<ValueRef<'_>>) -> bool
    ensures { result ≡ is_some
        (rebase.field_left (field_of {A = A} field.entry) (field_of {A = A} other.entry)) }
{
    match other {
        Some(_) => false,
        None => match field {
            Some(_) => true,
            None => false,
        },
    }
}

// Whether the old record has a field, by the new fields of its column.
#[inline(always)]
fn is_kept<A: AllocHandle>(
    key: bool,
    field: Option<ValueRef<'_>>,
    other: Option<ValueRef<'_>>,
) -> bool
    ensures { result ≡ (key
        || is_some (rebase.field_left (field_of {A = A} field.entry) (field_of {A = A} other.entry))) }
{
    key || is_left::<A>(field, other)
}

fn push_new_left<A: AllocHandle>(
    out: &mut Vec<u8, A>,
    local: &RecordRef<'_, A>,
    remote: &RecordRef<'_, A>,
) -> Result<(), OutOfMemory>
    ensures { OnOk result (out.new.items
        ≡ out.old.items ++ record_bytes (rebase.new_left local.now remote.now)) }
{
    let (mut local, mut remote) = (local.copy(), remote.copy());
    while let (Some(field), Some(other)) = (local.next_bytes(), remote.next_field()) {
        let left = other.is_none();
        push_if(out, left, field)?;
    }
    Ok(())
}

fn push_old_left<A: AllocHandle>(
    out: &mut Vec<u8, A>,
    flags: &[bool],
    old: &RecordRef<'_, A>,
    new: &RecordRef<'_, A>,
    remote: &RecordRef<'_, A>,
) -> Result<(), OutOfMemory>
    ensures { OnOk result (out.new.items ≡ out.old.items ++ record_bytes
        (by_column rebase.old_left flags.now old.now (rebase.new_left new.now remote.now))) }
{
    let (mut old, mut new, mut remote) = (old.copy(), new.copy(), remote.copy());
    for key in flags {
        let (Some(was), Some(is)) = (old.next_bytes(), new.next_field()) else {
            return Ok(());
        };
        let Some(other) = remote.next_field() else {
            return Ok(());
        };
        let kept = is_kept::<A>(*key, is, other);
        push_if(out, kept, was)?;
    }
    Ok(())
}

// Whether the key fields are the same.
pub(crate) fn have_one_key<A: AllocHandle>(
    flags: &[bool],
    left: RecordRef<'_, A>,
    right: RecordRef<'_, A>,
) -> bool
    ensures { result ≡ list_all (λ same. same)
        (by_column (λ key x y. not key || together.field_eq x y) flags.now left.entry right.entry) }
{
    let (mut left, mut right) = (left, right);
    for key in flags {
        let (Some(one), Some(other)) = (left.next_bytes(), right.next_bytes()) else {
            return true;
        };
        if is_other(*key, one, other) {
            return false;
        }
    }
    true
}

// Whether a column is in the key, and its fields differ, by their bytes.
#[inline(always)]
fn is_other(key: bool, one: &[u8], other: &[u8]) -> bool
    ensures { result ≡ (key && not (bytes_eq one.now other.now)) }
{
    key && one != other
}
