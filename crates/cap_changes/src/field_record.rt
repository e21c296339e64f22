//! Records of their own.
ghost use Rattle.std.specs.Prelude.{◌≡◌, IfOk};
ghost use Rattle.cap_changes.specs.Patch.{update_record};
ghost use Rattle.cap_changes.specs.Record.{fields_of};

use crate::RecordRef;
use crate::patches::push_update_record;
use cap_value::{AllocHandle, OutOfMemory};
use std::marker::Model;

/// A record: one field for each column of a table, in column order. A field is a value, or is undefined
/// (`None`). It is kept as the bytes of the fields.
#[derive(Drop)]
pub struct FieldRecord<A: AllocHandle> {
    bytes: Vec<u8, A>,
}

impl<A: AllocHandle> Model for FieldRecord<A> {
    ghost use Rattle.cap_changes.specs.FieldRecord.{RecordFields};
    ghost use Rattle.cap_changes.specs.Record.{fields_of, IsRecord};

    ghost Value = { RecordFields A };

    ghost view = { λ r. fields_of r.bytes.items };

    ghost invariant = { λ r. IsRecord {A = A} r.bytes.items (fields_of r.bytes.items) };
}

impl<A: AllocHandle> FieldRecord<A> {
    /// The record of the key fields of `old`, and of the other fields of `new`.
    #[tactic(auto, using(crate::proofs::StoredRecord::stored, crate::proofs::ValueLemmas::update_each))]
    pub fn of_update(
        alloc: A,
        flags: &[bool],
        old: RecordRef<'_, A>,
        new: RecordRef<'_, A>,
    ) -> Result<Self, OutOfMemory>
        ensures { IfOk result (λ made. made ≡ update_record flags.now old.entry new.entry) }
    {
        old.values();
        new.values();
        let mut bytes = Vec::new(alloc);
        push_update_record(&mut bytes, flags, old, new)?;
        Ok(FieldRecord { bytes })
    }

    /// The fields, one for each column.
    pub fn fields(&self) -> RecordRef<'_, A>
        ensures { result ≡ self.now }
    {
        RecordRef::of(self.bytes.as_slice())
    }
}
