//! Encoding and decoding of changesets and patchsets (The Session Extension, "Changeset Format").
#![tactic(auto)]

mod decoder;
mod group;
mod header;
mod key_flags;
mod missing;
mod read;
mod scan;
mod stream;
mod write;

pub use cap_changes::{
    CHANGESET_KIND, Operation, PATCHSET_KIND, is_changed, push_change_between, take_field,
};
pub use cap_field::{BlobFault, FaultKind, place_of, push_value, take_byte, take_varint};
pub use decoder::Decoder;
pub use group::{own_name, own_schema};
pub use header::{HeaderRef, take_header};
pub use key_flags::KeyFlags;
pub use read::{Contents, read_blob, wrong_kind};
pub use stream::{ReadFault, WriteFault, read_from, write_changes_to, write_patches_to};
pub use write::{
    push_group_header, push_header, write_changes, write_changes_with, write_patches,
    write_patches_with,
};
