//! The limits of values and names.

/// The most bytes that the name of a table or a saved database may have.
pub const NAME_BYTES_MAX: usize = 255;

/// The most bytes that a text or a blob may have: SQLite's default for "Maximum length of a string or
/// BLOB" (Implementation Limits For SQLite).
pub const VALUE_BYTES_MAX: usize = 1_000_000_000;
