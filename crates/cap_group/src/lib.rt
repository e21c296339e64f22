//! Changegroups: the changes of several blobs together, one for each row (The Session Extension,
//! "sqlite3changegroup_add").
#![tactic(auto)]

mod bytes;
mod change_group;
mod combine;
mod combine_changes;
mod combine_patches;
mod key_ref;
mod one_each;
mod place;
mod record;
mod refusal;
mod tables;
mod together;

pub use bytes::concat_bytes;
pub use change_group::{ChangeGroup, concat};
pub use record::{RecordOver, push_if, push_over, push_update_between};
pub use refusal::{BlobRefusal, ConcatRefusal, GroupRefusal};
