//! The limits of batches and transactions.

/// The most operations of a batch, and of a transaction those that are not undone.
pub const OPS_MAX: usize = 10_000;

/// The most savepoints that a transaction may make.
pub const SAVEPOINTS_MAX: u64 = 10_000;
