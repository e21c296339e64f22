//! Changesets and patchsets as lists of changes, which are kept as their bytes.
#![tactic(auto)]

mod bytes;
mod change_ref;
mod entries;
mod entry;
mod entry_ref;
mod field;
mod field_record;
mod field_requirement;
mod group;
mod inverse;
mod list;
mod operation;
mod pass;
mod patch;
mod patches;
mod record_kind;
mod record_ref;
mod row_change;
mod touched;

pub use bytes::{push_key, push_operation, push_record};
pub use change_ref::{ChangeRef, PatchRef};
pub use entries::Entries;
pub use entry::Entry;
pub use entry_ref::EntryRef;
pub use field::take_field;
pub use field_record::FieldRecord;
pub use field_requirement::FieldRequirement;
pub use group::{Group, PatchGroup, TableGroup};
pub use inverse::invert;
pub use list::{ChangeList, GroupList, PatchList};
pub use operation::Operation;
pub use patch::{PATCHSET_KIND, Patch};
pub use patches::{push_update_record, to_patches};
pub use record_kind::RecordKind;
pub use record_ref::RecordRef;
pub use row_change::{CHANGESET_KIND, RowChange};
pub use touched::{is_changed, push_change_between};
