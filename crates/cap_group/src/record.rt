//! Two records of one row: the fields of both together, and those that differ.
ghost use Rattle.std.specs.Prelude.{◌≡◌, ◌++◌, ◌∷◌, [], IfOk, MatchOption, OnOk, not, ◌&&◌, if◌then◌else◌};
ghost use Rattle.cap_value.specs.Bytes.{bytes_eq};
ghost use Rattle.cap_changes.specs.Column.{by_column};
ghost use Rattle.cap_changes.specs.Field.{record_bytes};
ghost use Rattle.cap_changes.specs.Record.{BeginsWithField};
ghost use Rattle.cap_group.specs.Put.{IsPut};
ghost use Rattle.cap_group.specs.Record as together;

use cap_changes::{Operation, RecordRef, push_operation};
use cap_field::UNDEFINED;
use cap_value::{AllocHandle, OutOfMemory};
use std::marker::Model;

/// The fields of a record, and those of the one below it where they are undefined.
#[derive(Drop)]
pub struct RecordOver<'a, A: AllocHandle> {
    below: RecordRef<'a, A>,
    above: RecordRef<'a, A>,
}

impl<'a, A: AllocHandle> Model for RecordOver<'a, A> {
    ghost use Rattle.cap_changes.specs.FieldRecord.{RecordFields};
    ghost use Rattle.cap_group.specs.Record.{record_over};

    ghost Value = { RecordFields A };

    ghost view = { λ r. record_over r.below r.above };
}

impl<'a, A: AllocHandle> RecordOver<'a, A> {
    /// The fields of `above`, and those of `below` where they are undefined.
    pub fn new(below: RecordRef<'a, A>, above: RecordRef<'a, A>) -> Self
        ensures { result ≡ together.record_over below.entry above.entry }
    {
        RecordOver { below, above }
    }

    /// The fields of a record alone.
    #[tactic(auto, using(crate::proofs::FieldLemmas::over_self))]
    pub fn alone(fields: RecordRef<'a, A>) -> Self
        ensures { result ≡ fields.entry }
    {
        RecordOver {
            below: fields.copy(),
            above: fields,
        }
    }

    /// The same fields.
    pub fn copy(&self) -> Self
        ensures { result ≡ self.now }
    {
        RecordOver {
            below: self.below.copy(),
            above: self.above.copy(),
        }
    }

    // The next field, as its bytes.
    #[tactic(auto, using(crate::proofs::FieldLemmas::over_none))]
    fn next_bytes(&mut self) -> Option<&'a [u8]>
        ensures { MatchOption result ((self.old ≡ []) × (self.new ≡ []))
            (λ field. BeginsWithField self.old field.now self.new) }
    {
        let below = self.below.next_bytes()?;
        let above = self.above.next_bytes()?;
        Some(either(above == [UNDEFINED].as_slice(), below, above))
    }
}

// The first bytes, or the second.
#[inline]
pub(crate) fn either<'a>(is_first: bool, first: &'a [u8], second: &'a [u8]) -> &'a [u8]
    ensures { result.now ≡ (if is_first then first.now else second.now) }
{
    if is_first { first } else { second }
}

/// Appends the fields, in column order.
pub fn push_over<A: AllocHandle>(
    out: &mut Vec<u8, A>,
    over: RecordOver<'_, A>,
) -> Result<(), OutOfMemory>
    ensures { OnOk result (out.new.items ≡ out.old.items ++ record_bytes over.entry) }
{
    let mut fields = over;
    while let Some(field) = fields.next_bytes() {
        out.extend_from_slice(field)?;
    }
    Ok(())
}

/// Appends the update from one record to another, where a field outside the key differs, and answers whether
/// any does.
pub fn push_update_between<A: AllocHandle>(
    out: &mut Vec<u8, A>,
    flags: &[bool],
    indirect: bool,
    before: &RecordOver<'_, A>,
    after: &RecordOver<'_, A>,
) -> Result<bool, OutOfMemory>
    ensures { IfOk result (λ some. IsPut some out.old.items out.new.items
        (together.update_between flags.now indirect before.now after.now)) }
{
    let start = out.len();
    push_operation(out, Operation::Update, indirect)?;
    if !push_fields(out, flags, true, before.copy(), after.copy())? {
        out.truncate(start);
        return Ok(false);
    }
    push_fields(out, flags, false, before.copy(), after.copy())?;
    Ok(true)
}

// Appends the old record of the update from one record to another, or its new record, and answers whether a
// field outside the key differs.
fn push_fields<A: AllocHandle>(
    out: &mut Vec<u8, A>,
    flags: &[bool],
    old: bool,
    before: RecordOver<'_, A>,
    after: RecordOver<'_, A>,
) -> Result<bool, OutOfMemory>
    ensures bytes { OnOk result (out.new.items ≡ out.old.items
        ++ record_bytes (by_column (together.field_of old) flags.now before.entry after.entry)) }
    ensures some { IfOk result (λ some. some ≡ together.differ flags.now before.entry after.entry) }
{
    let (mut before, mut after, mut some) = (before, after, false);
    for key in flags {
        let (Some(was), Some(is)) = (before.next_bytes(), after.next_bytes()) else {
            return Ok(some);
        };
        let modified = is_modified(*key, was, is);
        push_if(out, old & *key | modified, either(old, was, is))?;
        some |= modified;
    }
    Ok(some)
}

// Whether these are the bytes of a field outside the key that differs.
fn is_modified(key: bool, was: &[u8], is: &[u8]) -> bool
    ensures { result ≡ (not key && not (bytes_eq was.now is.now)) }
{
    !key && was != is
}

/// Appends a field, or an undefined one.
pub fn push_if<A: AllocHandle>(
    out: &mut Vec<u8, A>,
    defined: bool,
    field: &[u8],
) -> Result<(), OutOfMemory>
    ensures { OnOk result (out.new.items ≡ out.old.items ++ (if defined then field.now else 0 ∷ [])) }
{
    out.extend_from_slice(if defined { field } else { &[UNDEFINED] })
}
