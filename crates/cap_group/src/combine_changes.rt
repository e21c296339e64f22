//! Two changes of one row in changesets.

use crate::combine::Combine;
use crate::record::{RecordOver, push_over, push_update_between};
use cap_changes::{ChangeRef, EntryRef, Operation, RecordRef, RowChange, push_operation};
use cap_value::{AllocHandle, OutOfMemory};

impl<A: AllocHandle> Combine<A> for RowChange<A> {
    ghost use Rattle.cap_group.specs.ChangeKey.{change_key};
    ghost use Rattle.cap_group.specs.Combined.{combined};
    ghost use Rattle.cap_changes.proofs.StoredChange.{change_entry};

    ghost key = { λ flags change. change_key flags change };

    ghost combined = { λ flags present added. combined flags present added };

    fn key_record<'a>(change: &EntryRef<'a, Self>) -> RecordRef<'a, A> {
        match change.read() {
            ChangeRef::Insert { new, .. } => new,
            ChangeRef::Update { old, .. } => old,
            ChangeRef::Delete { old, .. } => old,
        }
    }

    fn push_combined(
        out: &mut Vec<u8, A>,
        flags: &[bool],
        present: &EntryRef<'_, Self>,
        added: &EntryRef<'_, Self>,
    ) -> Result<bool, OutOfMemory> {
        match (present.read(), added.read()) {
            (
                ChangeRef::Insert { indirect, new },
                ChangeRef::Update {
                    indirect: too,
                    new: last,
                    ..
                },
            ) => {
                push_operation(out, Operation::Insert, indirect & too)?;
                push_over(out, RecordOver::new(new, last))?;
                Ok(true)
            }
            (ChangeRef::Insert { .. }, ChangeRef::Delete { .. }) => Ok(false),
            (
                ChangeRef::Update { indirect, old, new },
                ChangeRef::Update {
                    indirect: too,
                    old: then,
                    new: last,
                },
            ) => {
                let first = RecordOver::new(then, old);
                let last = RecordOver::new(new, last);
                push_update_between(out, flags, indirect & too, &first, &last)
            }
            (
                ChangeRef::Update { indirect, old, .. },
                ChangeRef::Delete {
                    indirect: too,
                    old: then,
                },
            ) => {
                push_operation(out, Operation::Delete, indirect & too)?;
                push_over(out, RecordOver::new(then, old))?;
                Ok(true)
            }
            (ChangeRef::Delete { indirect, old }, ChangeRef::Insert { indirect: too, new }) => {
                let first = RecordOver::alone(old);
                let last = RecordOver::alone(new);
                push_update_between(out, flags, indirect & too, &first, &last)
            }
            _ => {
                out.extend_from_slice(present.as_bytes())?;
                Ok(true)
            }
        }
    }

    #[tactic(auto, using(crate::proofs::FitLemmas::combined_keep))]
    fn keeps_row() {}

    ghost stored_again = { λ flags change bytes fits values spelled.
        change_entry flags change bytes fits values spelled };
}
