//! The limits of tables.

/// What comes after the last id that a table gives, 2^63 - 1: the largest rowid of SQLite
/// (Rowid Tables).
pub const ROW_IDS_END: u64 = 1 << 63;
