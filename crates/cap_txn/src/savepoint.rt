//! Savepoints of a transaction, and their marks.
use cap_database::Database;
use cap_value::AllocHandle;

/// The number of a savepoint, counted from 0. A transaction never gives one twice.
#[derive(Clone, Copy, Debug, PartialEq, Eq, Drop)]
pub struct Mark {
    /// The number.
    pub number: u64,
}

// What a transaction was when a savepoint was made.
#[derive(Drop)]
pub(crate) struct Savepoint<A: AllocHandle> {
    pub(crate) number: u64,
    // How many operations stood.
    pub(crate) ops: usize,
    pub(crate) database: Database<A>,
}
