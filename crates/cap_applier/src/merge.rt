//! Which rows may stand in place of a change.
ghost use Rattle.std.specs.Prelude.{◌≡◌, Some, IfOk};
ghost use Rattle.cap_applier.specs.Merge.{refused_for, refused_key, refused_row};

use crate::RowConflict;
use cap_database::Database;
use cap_row::{Key, Row, Schema, key_of};
use cap_value::{AllocHandle, OutOfMemory};

/// Why a row may not stand in place of a change.
#[derive(Clone, Copy, Debug, PartialEq, Eq, Drop)]
pub enum MergeRefusal {
    /// No conflict is to be answered.
    NoConflict,
    /// The row has more or fewer fields than the table has columns.
    WrongWidth,
    /// The row has another key than the change names, or none.
    OtherKey,
}

// Why a row may not stand in place of the change that met the conflict, if it may not.
pub(crate) fn refused_for<A: AllocHandle>(
    alloc: A,
    database: &Database<A>,
    conflict: &RowConflict<A>,
    row: &Row<A>,
) -> Result<Option<MergeRefusal>, OutOfMemory>
    ensures { IfOk result (λ refusal. refusal ≡ refused_for database.now (Some conflict.now) row.now) }
{
    match database.table(&conflict.table) {
        Some(table) => refused_row(alloc, table.schema(), &conflict.key, row),
        None => Ok(Some(MergeRefusal::NoConflict)),
    }
}

// Why a row may not stand under this key in a table with these columns, if it may not.
fn refused_row<A: AllocHandle>(
    alloc: A,
    columns: &Schema<A>,
    key: &Key<A>,
    row: &Row<A>,
) -> Result<Option<MergeRefusal>, OutOfMemory>
    ensures { IfOk result (λ refusal. refusal ≡ refused_row (Some columns.now) key.now row.now) }
{
    if row.width() != columns.width() {
        return Ok(Some(MergeRefusal::WrongWidth));
    }
    Ok(refused_key(key_of(alloc, columns, row)?, key))
}

fn refused_key<A: AllocHandle>(own: Option<Key<A>>, key: &Key<A>) -> Option<MergeRefusal>
    ensures { result ≡ refused_key own key.now }
{
    match own {
        None => Some(MergeRefusal::OtherKey),
        Some(own) => {
            if own == *key {
                None
            } else {
                Some(MergeRefusal::OtherKey)
            }
        }
    }
}
