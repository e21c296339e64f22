//! The applier: changesets and patchsets applied to a database under a policy.
#![tactic(auto)]

mod applied;
mod apply_blob;
mod conflict;
mod decision;
mod entry;
mod fields;
pub mod laws;
mod policy;
mod report;
mod requested_ref;
mod target;

pub use applied::Applied;
pub use apply_blob::apply;
pub use conflict::{Conflict, ConflictKind};
pub use decision::Decision;
pub use entry::BlobChange;
pub use policy::{Answer, Policy};
pub use report::Report;
pub use requested_ref::RequestedRef;
