//! Rows, keys and assignments from the fields of a change.
ghost use Rattle.std.specs.Prelude.{◌≡◌, ◌∷◌, [], ◌++◌, Option, map, take, drop, IfOk, IfSome, IsTrue, OnOk};
ghost use Rattle.std.specs.Option.{option_copied, option_map, unwrap_or};
ghost use Rattle.cap_value.specs.Value.{IsValue};
ghost use Rattle.cap_value.specs.declared.value.Value.{Value};
ghost use Rattle.cap_field.specs.FieldReading.{value_of};
ghost use Rattle.cap_changes.specs.Field.{field_bytes};
ghost use Rattle.cap_changes.specs.Patch.{update_record};
ghost use Rattle.cap_changes.specs.Requirements.{requirements, satisfy};
ghost use Rattle.cap_changes.specs.declared.record_kind.RecordKind.TheVariants.{Full};
ghost use Rattle.cap_row.specs.Key.{is_key};
ghost use Rattle.cap_apply.specs.Row.{has_old_values, key_values, new_row, set_fields};

use cap_changes::RecordRef;
use cap_field::{UNDEFINED, ValueRef};
use cap_row::{Key, KeyValues, Row, RowBuilder, RowFields};
use cap_value::{AllocHandle, OutOfMemory};
use smallvec::SmallVec;

// The key that a change names.
pub(crate) fn key_of_fields<A: AllocHandle>(
    alloc: A,
    flags: &[bool],
    fields: &RecordRef<'_, A>,
) -> Result<Key<A>, OutOfMemory>
    requires { IsTrue (is_key (key_values flags.now fields.now)) }
    ensures { IfOk result (λ key. key ≡ key_values flags.now fields.now) }
{
    let key = match only_value(flags, fields) {
        Some(value) => Key::of_one(value.own(alloc)?),
        None => Key::of_values(alloc, key_values(alloc, flags, fields)?)?,
    };
    let Some(key) = key else { unreachable!() };
    Ok(key)
}

// The value of the key, where it is one alone: most keys have one column.
#[tactic(auto, using(crate::proofs::FieldLemmas::no_fields))]
fn only_value<'a, A: AllocHandle>(flags: &[bool], fields: &RecordRef<'a, A>) -> Option<ValueRef<'a>>
    ensures value { IfSome result (λ value. key_values {A = A} flags.now fields.now ≡ value_of value ∷ []) }
    ensures fits { IfSome result (λ value. IsValue {A = A} (value_of value)) }
{
    let mut only = None;
    let mut rest = fields.copy();
    for flag in flags {
        let Some(field) = rest.next_field() else {
            return only;
        };
        if *flag && let Some(value) = field {
            if only.is_some() {
                return None;
            }
            only = Some(value);
        }
    }
    only
}

#[tactic(auto, using(crate::proofs::FieldLemmas::no_more_fields))]
fn key_values<A: AllocHandle>(
    alloc: A,
    flags: &[bool],
    fields: &RecordRef<'_, A>,
) -> Result<KeyValues<A>, OutOfMemory>
    ensures { IfOk result (λ values. values.items ≡ key_values flags.now fields.now) }
{
    let mut values = SmallVec::new(alloc);
    let mut rest = fields.copy();
    for flag in flags {
        let Some(field) = rest.next_field() else {
            return Ok(values);
        };
        if *flag && let Some(value) = field {
            values.push(value.own(alloc)?)?;
        }
    }
    Ok(values)
}

// The row of an insert, with NULL in the columns beyond those of the change.
pub(crate) fn new_row<A: AllocHandle>(
    alloc: A,
    width: usize,
    flags: &[bool],
    fields: &RecordRef<'_, A>,
) -> Result<Row<A>, OutOfMemory>
    requires { IsTrue (satisfy (requirements Full flags.now) fields.now) }
    ensures { IfOk result (λ row. row ≡ new_row width fields.now) }
{
    let values = fields.as_values();
    let further = width.saturating_sub(flags.len());
    let room = values.as_bytes().len().saturating_add(further);
    let mut builder = RowBuilder::with_room(alloc, room)?;
    builder.push_rest(values)?;
    for _further in 0..further {
        builder.push_null()?;
    }
    builder.finish()
}

// The row after an update, where there is one: the key fields and the defined other fields are set.
pub(crate) fn updated<A: AllocHandle>(
    alloc: A,
    flags: &[bool],
    key: &RecordRef<'_, A>,
    new: &RecordRef<'_, A>,
    row: Option<&Row<A>>,
) -> Result<Option<Row<A>>, OutOfMemory>
    ensures { IfOk result (λ made. made ≡ option_map (set_fields (update_record flags.now key.now new.now))
        (option_copied row.entry)) }
{
    let Some(row) = row else {
        return Ok(None);
    };
    let fields = row.fields();
    let mut builder = RowBuilder::with_room(alloc, fields.as_bytes().len())?;
    set_fields(&mut builder, flags, key, new, fields)?;
    Ok(Some(builder.finish()?))
}

// Appends the values of the row, with the fields set.
#[tactic(auto, using(crate::proofs::FieldLemmas::bytes_chosen))]
fn set_fields<A: AllocHandle>(
    builder: &mut RowBuilder<A>,
    flags: &[bool],
    key: &RecordRef<'_, A>,
    new: &RecordRef<'_, A>,
    row: RowFields<'_, A>,
) -> Result<(), OutOfMemory>
    ensures { OnOk result (builder.new
        ≡ builder.old ++ set_fields (update_record flags.now key.now new.now) row.entry) }
{
    let mut key = key.copy();
    let mut new = new.copy();
    let mut rest = row;
    for flag in flags {
        let (Some(kept), Some(set)) = (key.next_bytes(), new.next_bytes()) else {
            break;
        };
        push_field(builder, if *flag { kept } else { set }, &mut rest)?;
    }
    builder.push_rest(rest)
}

// Appends the next value of the row after an update, where there is one: that of the field, by its bytes,
// where it is defined.
#[tactic(auto, using(crate::proofs::FieldLemmas::field_encodes, crate::proofs::FieldLemmas::next_kept))]
fn push_field<A: AllocHandle>(
    builder: &mut RowBuilder<A>,
    field: &[u8],
    rest: &mut RowFields<'_, A>,
) -> Result<(), OutOfMemory>
    requires { (given : Option (Value A)) × (field.now ≡ field_bytes given) × IfSome given IsValue }
    ensures field { OnOk result ((given : Option (Value A)) → field.now ≡ field_bytes given
        → IfSome given IsValue → builder.new ≡ builder.old ++ map (unwrap_or given) (take 1 rest.old)) }
    ensures passed { rest.new ≡ drop 1 rest.old }
{
    if field == [UNDEFINED].as_slice() {
        return builder.push_next(rest);
    }
    let Some(_) = rest.next_field() else {
        return Ok(());
    };
    builder.push_rest(RowFields::of(field))
}

// Whether the row has each old value of the change outside the key.
#[tactic(auto, using(crate::proofs::FieldLemmas::old_values))]
pub(crate) fn has_old_values<A: AllocHandle>(
    flags: &[bool],
    old: &RecordRef<'_, A>,
    row: RowFields<'_, A>,
) -> bool
    ensures { result ≡ has_old_values flags.now old.now row.entry }
{
    let mut rest = row;
    let mut fields = old.copy();
    for key in flags {
        let (Some(old), Some(value)) = (fields.next_field(), rest.next_value()) else {
            return true;
        };
        if let Some(old) = old
            && !*key
            && !old.same::<A>(value)
        {
            return false;
        }
    }
    true
}
