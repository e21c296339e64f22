//! Whole blobs, from bytes to bytes: the inverse and the patchset of a changeset.
#![tactic(auto)]

mod convert;
mod refusal;
mod target;

pub use convert::{convert_bytes, invert_bytes, patchset_bytes};
pub use refusal::ChangesetRefusal;
pub use target::Target;
