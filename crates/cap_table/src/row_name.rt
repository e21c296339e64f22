//! Names of rows, borrowed from their table.
use cap_row::Key;
use cap_value::AllocHandle;

/// The name of a row within its table, borrowed from the table.
#[derive(Drop)]
pub enum RowName<'a, A: AllocHandle> {
    /// The row with this primary key.
    Key(&'a Key<A>),
    /// The row without a key that has this id.
    Loose(u64),
}
