//! Why a blob is not added to a changegroup.
use cap_codec::BlobFault;
use thiserror::Error;

/// Why a blob is not added to a changegroup. SQLite's codes are `SQLITE_ERROR` and `SQLITE_SCHEMA`.
#[derive(Clone, Copy, Debug, PartialEq, Eq, Drop, Error)]
pub enum GroupRefusal {
    /// The blob has the changes of a changeset, and the changegroup has had those of a patchset, or the other
    /// way round.
    #[error("changeset and patchset")]
    OtherKind,
    /// A group whose table had other columns, or another key, in the changes before it.
    #[error("other columns in group {group}")]
    OtherColumns {
        /// The number of the group in its blob, from 0.
        group: usize,
    },
}

/// Why bytes are not added to a changegroup.
#[derive(Clone, Copy, Debug, PartialEq, Eq, Drop, Error)]
pub enum BlobRefusal {
    /// The bytes are no blob.
    #[error("{0}")]
    Malformed(BlobFault),
    /// Their blob is refused.
    #[error("{0}")]
    Group(GroupRefusal),
}

/// Why blobs have no concatenation: the first of them that is refused.
#[derive(Clone, Copy, Debug, PartialEq, Eq, Drop, Error)]
#[error("blob {blob}: {why}")]
pub struct ConcatRefusal {
    /// Its number, from 0.
    pub blob: usize,
    pub why: BlobRefusal,
}
