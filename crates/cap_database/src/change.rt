//! Changes of rows, as sessions record them.
use crate::Cause;
use cap_row::{Key, Row};
use cap_value::{AllocHandle, Name};

/// A change to one row of a table: an insert makes one, of the row that comes, a delete one, of the row that
/// goes, and an update two, of the old row and then of the new row.
#[derive(Drop)]
pub struct Change<A: AllocHandle> {
    /// The table's name.
    pub table: Name<A>,
    /// The row's primary key, or none where it has none.
    pub key: Option<Key<A>>,
    /// Why it changed.
    pub cause: Cause,
    /// The row before the change under its key: the row that goes. `None` where a row comes, or has no key.
    pub before: Option<Row<A>>,
}
