//! The limits of databases.

/// The most tables that a database may have.
pub const TABLES_MAX: usize = 64;
