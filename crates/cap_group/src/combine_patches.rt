//! Two changes of one row in patchsets.

use crate::combine::Combine;
use crate::record::{RecordOver, push_over};
use cap_changes::{
    EntryRef, Operation, Patch, PatchRef, RecordRef, push_key, push_operation, push_record,
};
use cap_value::{AllocHandle, OutOfMemory};

impl<A: AllocHandle> Combine<A> for Patch<A> {
    ghost use Rattle.cap_group.specs.ChangeKey.{patch_key};
    ghost use Rattle.cap_group.specs.Combined.{patches_combined};
    ghost use Rattle.cap_changes.proofs.StoredChange.{patch_entry};

    ghost key = { λ flags patch. patch_key flags patch };

    ghost combined = { λ flags present added. patches_combined present added };

    fn key_record<'a>(change: &EntryRef<'a, Self>) -> RecordRef<'a, A> {
        match change.read() {
            PatchRef::Insert { new, .. } => new,
            PatchRef::Update { new, .. } => new,
            PatchRef::Delete { key, .. } => key,
        }
    }

    fn push_combined(
        out: &mut Vec<u8, A>,
        _flags: &[bool],
        present: &EntryRef<'_, Self>,
        added: &EntryRef<'_, Self>,
    ) -> Result<bool, OutOfMemory> {
        match (present.read(), added.read()) {
            (
                PatchRef::Insert { indirect, new },
                PatchRef::Update {
                    indirect: too,
                    new: last,
                },
            ) => {
                push_operation(out, Operation::Insert, indirect & too)?;
                push_over(out, RecordOver::new(new, last))?;
                Ok(true)
            }
            (PatchRef::Insert { .. }, PatchRef::Delete { .. }) => Ok(false),
            (
                PatchRef::Update { indirect, new },
                PatchRef::Update {
                    indirect: too,
                    new: last,
                },
            ) => {
                push_operation(out, Operation::Update, indirect & too)?;
                push_over(out, RecordOver::new(new, last))?;
                Ok(true)
            }
            (PatchRef::Update { indirect, .. }, PatchRef::Delete { indirect: too, key }) => {
                push_operation(out, Operation::Delete, indirect & too)?;
                push_key(out, key)?;
                Ok(true)
            }
            (PatchRef::Delete { indirect, .. }, PatchRef::Insert { indirect: too, new }) => {
                push_operation(out, Operation::Update, indirect & too)?;
                push_record(out, new)?;
                Ok(true)
            }
            _ => {
                out.extend_from_slice(present.as_bytes())?;
                Ok(true)
            }
        }
    }

    #[tactic(auto, using(crate::proofs::FitLemmas::patches_keep))]
    fn keeps_row() {}

    ghost stored_again = { λ flags change bytes fits values spelled.
        patch_entry flags change bytes fits values spelled };
}
