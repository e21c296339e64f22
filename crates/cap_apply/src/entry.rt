//! The changes of a changeset and of a patchset, as changes that can be applied.
ghost use Rattle.std.specs.Prelude.{◌≡◌, Bool, List, IsTrue};
ghost use Rattle.cap_changes.specs.ChangeRef.{change_of, patch_of};
ghost use Rattle.cap_changes.specs.Fits.{patch_fits};
ghost use Rattle.cap_apply.specs.Requested.{Requested, as_change, requested_by};

use crate::RequestedRef;
use cap_changes::{ChangeRef, Entry, EntryRef, Patch, PatchRef, RowChange};
use cap_row::Schema;
use cap_value::AllocHandle;

/// A change of a changeset or of a patchset, as one that can be applied.
pub trait BlobChange<A: AllocHandle>: Entry {
    // The requested change of a table with these key flags.
    ghost requested: { List Bool → Self → Requested A };

    /// What it requests of a table with these columns, those of its group.
    fn request<'a>(change: &EntryRef<'a, Self>, columns: &Schema<A>) -> RequestedRef<'a, A>
    where
        Self: Sized,
        requires { IsTrue (Self.fits_in columns.now change.now) }
        ensures is { requested_by columns.now result ≡ requested columns.now change.now }
        ensures fits { IsTrue (patch_fits columns.now (requested_by columns.now result).patch) };
}

impl<A: AllocHandle> BlobChange<A> for RowChange<A> {
    ghost use Rattle.cap_apply.specs.Requested.{requested_by_change};

    ghost requested = { λ flags change. requested_by_change flags change };

    #[tactic(auto, using(crate::proofs::KeyLemmas::requests))]
    fn request<'a>(change: &EntryRef<'a, Self>, _columns: &Schema<A>) -> RequestedRef<'a, A> {
        RequestedRef {
            change: change.read(),
            has_old: true,
        }
    }
}

impl<A: AllocHandle> BlobChange<A> for Patch<A> {
    ghost use Rattle.cap_apply.specs.Requested.{requested_by_patch};

    ghost requested = { λ flags patch. requested_by_patch flags patch };

    #[tactic(auto, using(crate::proofs::KeyLemmas::requests))]
    fn request<'a>(change: &EntryRef<'a, Self>, _columns: &Schema<A>) -> RequestedRef<'a, A> {
        RequestedRef {
            change: as_change(change.read()),
            has_old: false,
        }
    }
}

// A patch as a change, whose old record has the key.
fn as_change<'a, A: AllocHandle>(patch: PatchRef<'a, A>) -> ChangeRef<'a, A>
    ensures { change_of result ≡ as_change (patch_of patch.entry) }
{
    match patch {
        PatchRef::Insert { indirect, new } => ChangeRef::Insert { indirect, new },
        PatchRef::Update { indirect, new } => ChangeRef::Update {
            indirect,
            old: new.copy(),
            new,
        },
        PatchRef::Delete { indirect, key } => ChangeRef::Delete { indirect, old: key },
    }
}
