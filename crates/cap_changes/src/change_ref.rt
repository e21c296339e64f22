//! Changes in place.
use crate::RecordRef;
use cap_value::AllocHandle;

/// One change of a changeset, as references into its bytes.
#[derive(Drop)]
pub enum ChangeRef<'a, A: AllocHandle> {
    /// An insert. Every field is defined.
    Insert {
        /// Whether it is indirect.
        indirect: bool,
        /// The row now.
        new: RecordRef<'a, A>,
    },
    /// An update: other values under the same key.
    Update {
        /// Whether it is indirect.
        indirect: bool,
        /// The row before: its key fields and its modified fields.
        old: RecordRef<'a, A>,
        /// The row now: its modified fields only.
        new: RecordRef<'a, A>,
    },
    /// A delete. Every field is defined.
    Delete {
        /// Whether it is indirect.
        indirect: bool,
        /// The row before.
        old: RecordRef<'a, A>,
    },
}

/// One change of a patchset, as references into its bytes.
#[derive(Drop)]
pub enum PatchRef<'a, A: AllocHandle> {
    /// An insert. Every field is defined.
    Insert {
        /// Whether it is indirect.
        indirect: bool,
        /// The row now.
        new: RecordRef<'a, A>,
    },
    /// An update: other values under the same key.
    Update {
        /// Whether it is indirect.
        indirect: bool,
        /// The key fields, and the modified fields as they are now.
        new: RecordRef<'a, A>,
    },
    /// A delete. Only the key fields are defined.
    Delete {
        /// Whether it is indirect.
        indirect: bool,
        /// The key fields.
        key: RecordRef<'a, A>,
    },
}
