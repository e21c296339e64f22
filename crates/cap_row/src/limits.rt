//! The limits of rows.

/// The most columns that a table may have: SQLite's default for "Maximum Number Of Columns"
/// (Implementation Limits For SQLite).
pub const COLUMNS_MAX: usize = 2_000;
