//! Why bytes are no changeset.
use cap_codec::BlobFault;
use thiserror::Error;

/// Why bytes are no changeset.
#[derive(Clone, Copy, Debug, PartialEq, Eq, Drop, Error)]
pub enum ChangesetRefusal {
    /// The bytes are no blob.
    #[error("{0}")]
    Malformed(BlobFault),
    /// They are a patchset, which has no old values.
    #[error("patchset")]
    Patchset,
}
