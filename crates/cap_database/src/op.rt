//! Operations.
use crate::{Assignments, Cause};
use cap_row::Row;
use cap_table::RowRef;
use cap_value::{AllocHandle, Name};

/// One operation on one row of a table.
#[derive(Drop)]
pub struct Op<A: AllocHandle> {
    /// The table's name.
    pub table: Name<A>,
    /// What causes it.
    pub cause: Cause,
    /// What it does.
    pub action: Action<A>,
}

/// What an operation does to its table.
#[derive(Drop)]
pub enum Action<A: AllocHandle> {
    /// Adds a row.
    Insert(Row<A>),
    /// Sets columns of a row.
    Update(RowRef<A>, Assignments<A>),
    /// Removes a row.
    Delete(RowRef<A>),
}
