//! The change of one touched key as bytes, encoded from its rows without building a record.

ghost use mathlib.Core.List.{IsPrefix};
ghost use Rattle.std.specs.Prelude.{◌≡◌, ◌++◌, [], ◌∷◌, IsTrue, OnErr, OnOk, not, ◌&&◌, ◌||◌, if◌then◌else◌};
ghost use Rattle.std.specs.List.{cons_option, flat_map};
ghost use Rattle.std.specs.Option.{option_copied, ForSome};
ghost use Rattle.cap_value.specs.Bytes.{bytes_eq};
ghost use Rattle.cap_row.specs.Encoding.{AreValues};
ghost use Rattle.cap_changes.specs.Change as touched;
ghost use Rattle.cap_changes.specs.ChangeBytes.{change_bytes};
ghost use Rattle.cap_changes.specs.Field.{record_bytes};
ghost use Rattle.cap_changes.specs.Touched.{is_changed};

use crate::bytes::push_operation;
use crate::operation::Operation;
use cap_field::UNDEFINED;
use cap_row::{Row, RowFields, Schema};
use cap_value::{AllocHandle, OutOfMemory};

/// Whether the row of a touched key has changed: inserted, deleted, or with other values. `image` is its
/// first image, `now` its row now.
pub fn is_changed<A: AllocHandle>(image: Option<&Row<A>>, now: Option<&Row<A>>) -> bool
    ensures { result ≡ is_changed (option_copied image.entry) (option_copied now.entry) }
{
    match (image, now) {
        (None, None) => false,
        (Some(image), Some(now)) => image != now,
        _ => true,
    }
}

/// Appends the bytes of the change of a touched key, as in a changeset: `image` is its first image, `now` its
/// row now. On an error the bytes are as before.
pub fn push_change_between<A: AllocHandle>(
    out: &mut Vec<u8, A>,
    schema: &Schema<A>,
    indirect: bool,
    image: Option<&Row<A>>,
    now: Option<&Row<A>>,
) -> Result<(), OutOfMemory>
    requires { IsTrue (is_changed (option_copied image) (option_copied now)) }
    ensures bytes { OnOk result (out.new.items ≡ out.old.items ++ flat_map change_bytes (cons_option
        (touched.change_of schema.now indirect (option_copied image.entry) (option_copied now.entry)) [])) }
    ensures kept { OnErr result (out.new.items ≡ out.old.items) }
{
    let before = out.len();
    match push_change(out, schema, indirect, image, now) {
        Ok(()) => Ok(()),
        Err(_) => {
            out.truncate(before);
            Err(OutOfMemory)
        }
    }
}

// A law: the values of a row are within the limits of their storage classes.
#[inline(always)]
pub(crate) fn are_values<A: AllocHandle>(row: Option<&Row<A>>)
    ensures { ForSome (option_copied row.entry) AreValues }
{
    if let Some(row) = row {
        let _bytes = row.fields().as_bytes();
    }
}

// Appends the change. On an error a beginning of its bytes is appended.
pub(crate) fn push_change<A: AllocHandle>(
    out: &mut Vec<u8, A>,
    schema: &Schema<A>,
    indirect: bool,
    image: Option<&Row<A>>,
    now: Option<&Row<A>>,
) -> Result<(), OutOfMemory>
    requires { IsTrue (is_changed (option_copied image) (option_copied now)) }
    ensures bytes { OnOk result (out.new.items ≡ out.old.items ++ flat_map change_bytes (cons_option
        (touched.change_of schema.now indirect (option_copied image.entry) (option_copied now.entry)) [])) }
    ensures begins { OnErr result (IsPrefix out.old.items out.new.items) }
{
    match (image, now) {
        (None, None) => Ok(()),
        (None, Some(now)) => {
            push_operation(out, Operation::Insert, indirect)?;
            push_row(out, now)
        }
        (Some(image), None) => {
            push_operation(out, Operation::Delete, indirect)?;
            push_row(out, image)
        }
        (Some(image), Some(now)) => {
            push_operation(out, Operation::Update, indirect)?;
            push_side(out, schema.flags(), true, image.fields(), now.fields())?;
            push_side(out, schema.flags(), false, image.fields(), now.fields())
        }
    }
}

// Appends a record in which every field is defined.
#[tactic(auto, using(crate::proofs::TouchedLemmas::row_is_record))]
fn push_row<A: AllocHandle>(out: &mut Vec<u8, A>, row: &Row<A>) -> Result<(), OutOfMemory>
    ensures bytes { OnOk result
        (out.new.items ≡ out.old.items ++ record_bytes (touched.full_record row.now)) }
    ensures begins { OnErr result (IsPrefix out.old.items out.new.items) }
{
    row.write_to(out)
}

// Appends the old record of an update, the key fields and the modified fields as they were, or the new one,
// the modified fields as they are now.
#[tactic(auto, using(crate::proofs::PutLemmas::no_pairs, crate::proofs::TouchedLemmas::side_by_bytes, std::proofs::lemmas::Grind::common_steps))]
fn push_side<A: AllocHandle>(
    out: &mut Vec<u8, A>,
    flags: &[bool],
    old: bool,
    image: RowFields<'_, A>,
    now: RowFields<'_, A>,
) -> Result<(), OutOfMemory>
    ensures bytes { OnOk result (out.new.items ≡ out.old.items
        ++ record_bytes (touched.side_record old flags.now image.entry now.entry)) }
    ensures begins { OnErr result (IsPrefix out.old.items out.new.items) }
{
    let mut image = image;
    let mut now = now;
    for key in flags {
        let (Some(was), Some(is)) = (image.next_field(), now.next_field()) else {
            return Ok(());
        };
        push_field(out, old, *key, was, is)?;
    }
    Ok(())
}

// Appends the field of a column in the old or the new record, by its bytes as they were and as they are.
#[inline(always)]
fn push_field<A: AllocHandle>(
    out: &mut Vec<u8, A>,
    old: bool,
    key: bool,
    was: &[u8],
    is: &[u8],
) -> Result<(), OutOfMemory>
    ensures bytes { OnOk result (out.new.items ≡ out.old.items
        ++ (if old && key || (not key && not (bytes_eq was.now is.now))
        then (if old then was.now else is.now) else 0 ∷ [])) }
    ensures begins { OnErr result (IsPrefix out.old.items out.new.items) }
{
    if old && key || !key && was != is {
        out.extend_from_slice(if old { was } else { is })?;
    } else {
        out.push(UNDEFINED)?;
    }
    Ok(())
}
