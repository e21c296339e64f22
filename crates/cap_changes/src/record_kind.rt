//! The kinds of records.
ghost use Rattle.std.specs.Prelude.{◌≡◌};
ghost use Rattle.cap_changes.specs.Requirements.{requirement_of};

use crate::FieldRequirement;

/// The kinds of records whose fields are known by the schema alone (The Session Extension, "Changeset
/// Format").
#[derive(Clone, Copy)]
pub enum RecordKind {
    /// Every field is defined: an INSERT, and a changeset's DELETE.
    Full,
    /// The key fields are defined: the old record of an UPDATE, and a patchset's UPDATE.
    Keyed,
    /// The key fields only: a patchset's DELETE.
    KeyAlone,
}

impl RecordKind {
    /// The requirement on a column's field, by whether the column is in the key.
    pub fn requirement(self, key: bool) -> FieldRequirement
        ensures { result ≡ requirement_of self key }
    {
        if key {
            return FieldRequirement::Key;
        }
        match self {
            RecordKind::Full => FieldRequirement::Defined,
            RecordKind::Keyed => FieldRequirement::Any,
            RecordKind::KeyAlone => FieldRequirement::Omitted,
        }
    }
}
