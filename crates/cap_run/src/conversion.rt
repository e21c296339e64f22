//! What is made of a changeset, or of several blobs.
use crate::Encoding;
use cap_blob::Target;
use cap_codec::KeyFlags;

/// What a changeset is converted to, and how that is written.
#[derive(Clone, Copy, Debug, PartialEq, Eq, Drop)]
pub struct Conversion {
    pub target: Target,
    /// The key flags that are written. Either are read.
    pub key_flags: KeyFlags,
    /// The encoding of the input and of the output.
    pub encoding: Encoding,
}

/// What several blobs make together.
#[derive(Clone, Copy, Debug, PartialEq, Eq, Drop)]
pub enum CombinationKind {
    /// The concatenation of changesets, or of patchsets.
    Concatenation,
    /// The first blob, a local changeset, rebased over the others, the buffers of applications in their
    /// order.
    Rebase,
}

/// What several blobs make together, and how they are read and it is written.
#[derive(Clone, Copy, Debug, PartialEq, Eq, Drop)]
pub struct Combination {
    pub kind: CombinationKind,
    /// The key flags that are written. Either are read.
    pub key_flags: KeyFlags,
    /// The encoding of the blobs and of the output. Blobs in hex are lines. Blobs as bytes are each behind
    /// their length as eight bytes, the most significant first; the output is without its length.
    pub encoding: Encoding,
}
