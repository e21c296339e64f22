//! The key flags in the header of a group.

/// The bytes that flag key columns in the header of a group. Both are read as the same columns, since any
/// byte but zero flags a key column.
#[derive(Clone, Copy, Debug, PartialEq, Eq, Drop)]
pub enum KeyFlags {
    /// `01` for each key column (The Session Extension, "Changeset Format").
    Ones,
    /// The column's position within the key, in column order: 1 for the first key column, 2 for the next, and
    /// 255 for each from the 255th on, since a flag is one byte. SQLite's code writes these, and applies a
    /// group only where they are those of its own table.
    Places,
}
