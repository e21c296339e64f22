//! Rebasing: a changeset over the remote changes that met a conflict with it (The Session Extension,
//! "Rebasing changesets").
#![tactic(auto)]

mod buffer;
mod bytes;
mod change;
pub mod laws;
mod left;
mod push;
mod rebaser;
mod record;
mod refusal;
mod rows;

pub use buffer::buffer_of;
pub use bytes::{buffer_bytes, rebase_bytes};
pub use change::rebase_change;
pub use left::ChangeLeft;
pub use rebaser::Rebaser;
pub use refusal::{BlobRefusal, NumberedRefusal, RebaseRefusal};
