//! All rows of a table at one moment.
ghost use Rattle.std.specs.Prelude.{◌≡◌, IfOk};
ghost use Rattle.cap_table.specs.Scan.{rows_from};

use crate::Scan;
use cap_row::{Key, Row};
use cap_tree::Tree;
use cap_value::{AllocHandle, OutOfMemory};
use std::marker::Model;

/// All rows of a table as it stood, each with its name: those with a key in the order of their keys, and then
/// the others by their ids. They share the table's nodes.
pub struct Rows<A: AllocHandle> {
    keyed: Tree<Key<A>, Row<A>, A>,
    loose: Tree<u64, Row<A>, A>,
}

impl<A: AllocHandle> Model for Rows<A> {
    ghost use Rattle.std.specs.Prelude.{List};
    ghost use Rattle.cap_row.specs.Fields.{Fields};
    ghost use Rattle.cap_table.specs.declared.row_ref.RowRef.{RowRef};

    ghost Value = { List (RowRef A × Fields A) };

    ghost use Rattle.cap_table.specs.Scan.{rows_from};

    ghost view = { λ r. rows_from r.keyed r.loose };
}

// A derived `Drop` would be opened at each place where one is dropped.
impl<A: AllocHandle> Drop for Rows<A> {
    fn drop(self) {
        let Rows { keyed: _, loose: _ } = self;
    }
}

impl<A: AllocHandle> Rows<A> {
    pub(crate) fn of(
        keyed: &Tree<Key<A>, Row<A>, A>,
        loose: &Tree<u64, Row<A>, A>,
    ) -> Result<Self, OutOfMemory>
        ensures { IfOk result (λ all. all ≡ rows_from keyed.now loose.now) }
    {
        Ok(Rows {
            keyed: keyed.snapshot()?,
            loose: loose.snapshot()?,
        })
    }

    /// The rows, one after another.
    pub fn scan(&self) -> Scan<'_, A>
        ensures { result ≡ self.now }
    {
        Scan::over(&self.keyed, &self.loose)
    }

    /// The same rows, in the time of two snapshots.
    pub fn copy(&self) -> Result<Self, OutOfMemory>
        ensures { IfOk result (λ copy. copy ≡ self.now) }
    {
        Rows::of(&self.keyed, &self.loose)
    }
}
