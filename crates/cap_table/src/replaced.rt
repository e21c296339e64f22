//! What an update answers.
use cap_row::{Key, Row};
use cap_value::AllocHandle;

/// What an update answers: the new row's key, and the old row.
#[derive(Drop)]
pub struct Replaced<A: AllocHandle> {
    /// The primary key of the new row, or none where it has none.
    pub key: Option<Key<A>>,
    /// The old row.
    pub row: Row<A>,
}
