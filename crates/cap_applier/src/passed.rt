//! How much of a blob a filter does not accept.
/// How much of a blob was passed over, since a filter does not accept its tables.
#[derive(Clone, Copy, Debug, PartialEq, Eq, Drop)]
pub struct Passed {
    /// How many groups.
    pub groups: u64,
    /// How many changes they have.
    pub changes: u64,
}
