//! Conflicts of changes with the rows of a table.

use crate::Answer;

/// The kinds of conflicts (The Session Extension, "sqlite3changeset_apply").
#[derive(Clone, Copy, Debug, PartialEq, Eq, Drop)]
pub enum ConflictKind {
    /// An update or a delete found a row with other values than the old values of the change.
    Data,
    /// An update or a delete found no row.
    NotFound,
    /// An insert found a row under its key.
    Conflict,
}

/// A conflict of a change, and the policy's answer.
#[derive(Clone, Copy, Debug, PartialEq, Eq, Drop)]
pub struct Conflict {
    /// The number of the change, counted from 0 over the whole blob.
    pub change: u64,
    /// What the change met. A patchset has no old values, so its changes never meet `Data`.
    pub kind: ConflictKind,
    /// What the policy answered.
    pub answer: Answer,
}
