//! The bytes of changes.
ghost use mathlib.Core.List.{IsPrefix};
ghost use Rattle.std.specs.Prelude.{◌≡◌, ◌++◌, ◌∷◌, [], OnErr, OnOk};
ghost use Rattle.cap_changes.specs.ChangeBytes.{flag_byte};
ghost use Rattle.cap_changes.specs.Field.{record_bytes, key_bytes};
ghost use Rattle.cap_changes.specs.Operation.{operation_byte};

use crate::RecordRef;
use crate::operation::Operation;
use cap_field::UNDEFINED;
use cap_value::{AllocHandle, OutOfMemory};

/// Appends an operation byte and the indirect flag.
pub fn push_operation<A: AllocHandle>(
    out: &mut Vec<u8, A>,
    operation: Operation,
    indirect: bool,
) -> Result<(), OutOfMemory>
    ensures bytes { OnOk result (out.new.items ≡ out.old.items
        ++ operation_byte operation ∷ flag_byte indirect ∷ []) }
    ensures begins { OnErr result (IsPrefix out.old.items out.new.items) }
{
    out.extend_from_slice(&[operation.byte(), indirect as u8])?;
    Ok(())
}

/// Appends the fields of a record, in column order.
pub fn push_record<A: AllocHandle>(
    out: &mut Vec<u8, A>,
    given: RecordRef<'_, A>,
) -> Result<(), OutOfMemory>
    ensures bytes { OnOk result (out.new.items ≡ out.old.items ++ record_bytes given.entry) }
    ensures begins { OnErr result (IsPrefix out.old.items out.new.items) }
{
    match given.whole() {
        Ok(bytes) => Ok(out.extend_from_slice(bytes)?),
        Err(mut fields) => {
            while let Some(field) = fields.next_bytes() {
                out.extend_from_slice(field)?;
            }
            Ok(())
        }
    }
}

/// Appends the defined fields of a record, in column order.
pub fn push_key<A: AllocHandle>(
    out: &mut Vec<u8, A>,
    given: RecordRef<'_, A>,
) -> Result<(), OutOfMemory>
    ensures bytes { OnOk result (out.new.items ≡ out.old.items ++ key_bytes given.entry) }
    ensures begins { OnErr result (IsPrefix out.old.items out.new.items) }
{
    let mut fields = given;
    while let Some(field) = fields.next_bytes() {
        if field != [UNDEFINED].as_slice() {
            out.extend_from_slice(field)?;
        }
    }
    Ok(())
}
