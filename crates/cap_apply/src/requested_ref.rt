//! What a change of a changeset or of a patchset requests, in place.
ghost use Rattle.std.specs.Prelude.{◌≡◌, IfOk, IsTrue};
ghost use Rattle.std.specs.Option.{option_copied};
ghost use Rattle.cap_row.specs.Schema.{has_key};
ghost use Rattle.cap_changes.specs.ChangeRef.{change_of};
ghost use Rattle.cap_changes.specs.Fits.{patch_fits};
ghost use Rattle.cap_apply.specs.Requested.{key_record, requested_by};
ghost use Rattle.cap_apply.specs.Row.{conflict_of, key_record_of, key_values, row_after};

use crate::ConflictKind;
use crate::fields::{has_old_values, key_of_fields, new_row, updated};
use cap_changes::{ChangeRef, RecordRef};
use cap_row::{Key, Row, Schema};
use cap_value::{AllocHandle, OutOfMemory};

/// The requested change of an entry of a blob, as references into its bytes. The columns of a call are those
/// of its group.
#[derive(Drop)]
pub struct RequestedRef<'a, A: AllocHandle> {
    /// The change. That of a patch has the key in its old record, and no old values.
    pub change: ChangeRef<'a, A>,
    /// Whether the other fields of its old record are old values.
    pub has_old: bool,
}

impl<'a, A: AllocHandle> RequestedRef<'a, A> {
    /// The key that it names.
    #[tactic(auto, using(crate::proofs::KeyLemmas::change_key, crate::proofs::KeyLemmas::its_key))]
    pub fn key(&self, alloc: A, columns: &Schema<A>) -> Result<Key<A>, OutOfMemory>
        requires keyed { IsTrue (has_key columns.now) }
        requires fits { IsTrue (patch_fits columns.now (requested_by columns.now self.now).patch) }
        ensures { IfOk result (λ key. key
            ≡ key_values columns.now (key_record_of (requested_by columns.now self.now).patch)) }
    {
        key_of_fields(alloc, columns.flags(), record_with_key(&self.change))
    }

    /// The conflict that it meets with the row under its key, or with none there.
    pub fn conflict(&self, columns: &Schema<A>, row: Option<&Row<A>>) -> Option<ConflictKind>
        ensures { result ≡ conflict_of columns.now (requested_by columns.now self.now).old
            (requested_by columns.now self.now).patch (option_copied row.entry) }
    {
        match (&self.change, row) {
            (ChangeRef::Insert { .. }, None) => None,
            (ChangeRef::Insert { .. }, Some(_)) => Some(ConflictKind::Conflict),
            (_, None) => Some(ConflictKind::NotFound),
            (ChangeRef::Update { old, .. } | ChangeRef::Delete { old, .. }, Some(row)) => {
                if self.has_old && !has_old_values(columns.flags(), old, row.fields()) {
                    Some(ConflictKind::Data)
                } else {
                    None
                }
            }
        }
    }

    /// The row that it leaves in the place of the row under its key, or of none there, in a table of this
    /// width.
    pub fn row_after(
        &self,
        alloc: A,
        columns: &Schema<A>,
        width: usize,
        before: Option<&Row<A>>,
    ) -> Result<Option<Row<A>>, OutOfMemory>
        requires { IsTrue (patch_fits columns.now (requested_by columns.now self.now).patch) }
        ensures { IfOk result (λ after. after ≡ row_after width
            (requested_by columns.now self.now).patch (option_copied before.entry)) }
    {
        let flags = columns.flags();
        match &self.change {
            ChangeRef::Insert { new, .. } => Ok(Some(new_row(alloc, width, flags, new)?)),
            ChangeRef::Update { old, new, .. } => updated(alloc, flags, old, new, before),
            ChangeRef::Delete { .. } => Ok(None),
        }
    }
}

// The record of a change that has its key.
fn record_with_key<'r, 'a, A: AllocHandle>(change: &'r ChangeRef<'a, A>) -> &'r RecordRef<'a, A>
    ensures { result.now ≡ key_record (change_of change.now) }
{
    match change {
        ChangeRef::Insert { new, .. } => new,
        ChangeRef::Update { old, .. } => old,
        ChangeRef::Delete { old, .. } => old,
    }
}
