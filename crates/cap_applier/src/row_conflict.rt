//! What a change meets.
ghost use Rattle.std.specs.Prelude.{◌≡◌};

use cap_apply::ConflictKind;
use cap_row::{Key, Row};
use cap_value::{AllocHandle, Name};

/// The conflict that a change meets, and the row that is there.
pub struct RowConflict<A: AllocHandle> {
    /// What the change meets. A patchset has no old values, so its changes never meet `Data`.
    pub kind: ConflictKind,
    /// The table.
    pub table: Name<A>,
    /// The key that the change names.
    pub key: Key<A>,
    /// The row under it, after the changes of the blob before this one; none where the kind is `NotFound`.
    pub row: Option<Row<A>>,
}

// A derived `Drop` would be opened in each caller.
impl<A: AllocHandle> Drop for RowConflict<A> {
    fn drop(self) {
        let RowConflict {
            kind: _,
            table: _,
            key: _,
            row: _,
        } = self;
    }
}

impl<A: AllocHandle> RowConflict<A> {
    // What was met, and where.
    pub(crate) fn into_place(self) -> (ConflictKind, Name<A>, Key<A>)
        ensures kind { result.0 ≡ self.kind }
        ensures table { result.1 ≡ self.table }
        ensures key { result.2 ≡ self.key }
    {
        let RowConflict {
            kind,
            table,
            key,
            row: _,
        } = self;
        (kind, table, key)
    }
}
