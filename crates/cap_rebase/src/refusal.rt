//! Why a buffer or a changeset is refused.
use cap_codec::BlobFault;
use thiserror::Error;

/// Why a buffer or a changeset is refused by a rebaser. SQLite's code is `SQLITE_SCHEMA`.
#[derive(Clone, Copy, Debug, PartialEq, Eq, Drop, Error)]
pub enum RebaseRefusal {
    /// A group whose table has other columns, or another key, in a buffer before it.
    #[error("other columns in group {group}")]
    OtherColumns {
        /// The number of the group, from 0.
        group: usize,
    },
}

/// Why bytes are refused by a rebaser, or have no buffer.
#[derive(Clone, Copy, Debug, PartialEq, Eq, Drop, Error)]
pub enum BlobRefusal {
    /// The bytes are no blob.
    #[error("{0}")]
    Malformed(BlobFault),
    /// They are a patchset, which has no old values.
    #[error("patchset")]
    Patchset,
    /// Their changeset is refused.
    #[error("{0}")]
    Columns(RebaseRefusal),
}

/// Why a changeset and buffers, both bytes, are refused.
#[derive(Clone, Copy, Debug, PartialEq, Eq, Drop, Error)]
#[error("blob {blob}: {why}")]
pub struct NumberedRefusal {
    /// Which bytes are refused: 0 for the changeset, 1 for the buffers.
    pub blob: usize,
    pub why: BlobRefusal,
}
