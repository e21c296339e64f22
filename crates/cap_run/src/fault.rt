//! The faults of a run.

use cap_codec::BlobFault;
use cap_group::GroupRefusal;
use cap_locked::CallFault;
use cap_rebase::RebaseRefusal;
use cap_script::ScriptFault;
use cap_value::Fault;
use thiserror::Error;

/// Why one of several blobs is refused.
#[derive(Clone, Copy, Debug, PartialEq, Eq, Drop, Error)]
pub enum ListedFault {
    /// The line is not hex.
    #[error("not hex")]
    NotHex,
    /// The input ends inside the blob or its length.
    #[error("truncated")]
    Truncated,
    /// The bytes are neither a changeset nor a patchset.
    #[error("fault {0}")]
    Malformed(BlobFault),
    /// The blob is not concatenated with those before it.
    #[error("{0}")]
    Group(GroupRefusal),
    /// The bytes are a patchset, which is neither rebased nor a buffer.
    #[error("patchset")]
    Patchset,
    /// The buffer does not go with those before it, or the changeset with the buffers.
    #[error("{0}")]
    Columns(RebaseRefusal),
}

/// Which of several blobs is refused, and why. Lines and blobs are counted from 1.
#[derive(Clone, Copy, Debug, PartialEq, Eq, Drop, Error)]
pub enum BlobListFault {
    /// A blob in hex.
    #[error("line {line}: {why}")]
    Line {
        /// Its line.
        line: u64,
        why: ListedFault,
    },
    /// A blob as bytes.
    #[error("blob {blob}: {why}")]
    Blob {
        /// Its number.
        blob: u64,
        why: ListedFault,
    },
}

/// Why a run or a shell failed, or why blobs were not shown, converted, concatenated or rebased.
#[derive(Clone, Copy, Debug, PartialEq, Eq, Drop, Error)]
pub enum RunFault {
    /// The text is refused. Nothing was run.
    #[error(transparent)]
    Script(ScriptFault),
    /// The input is not UTF-8. Nothing was run.
    #[error("not UTF-8")]
    NotUtf8,
    /// The input is not hex. Nothing was shown or converted.
    #[error("not hex")]
    NotHex,
    /// The bytes are neither a changeset nor a patchset. Nothing was shown or converted.
    #[error("fault {0}")]
    Blob(BlobFault),
    /// The bytes are a patchset, which has neither an inverse nor a patchset. Nothing was converted.
    #[error("patchset")]
    Patchset,
    /// A blob of several is refused. Nothing was concatenated or rebased.
    #[error(transparent)]
    BlobList(BlobListFault),
    /// A command has no reply. The replies before it were printed, and then this fault.
    #[error(transparent)]
    Call(CallFault),
    /// A read failed, or the reader had not ended after 2^40 reads. A shell has run and answered the lines
    /// before; in all other cases nothing was run or printed.
    #[error("a read failed")]
    Read,
    /// A write failed. A prefix of the output was written.
    #[error("a write failed")]
    Write,
    /// Out of memory for the input, for a new server, or for the whole of what is printed of blobs. Nothing
    /// was run or printed.
    #[error("out of memory")]
    OutOfMemory,
    /// The server could not be closed. All lines were run and their replies printed.
    #[error("the server was not closed")]
    Close,
}

impl RunFault {
    ghost use Rattle.std.specs.Prelude.{◌≡◌};
    ghost use Rattle.cap_run.specs.RunFault.{exit_status};

    /// The exit status of the program: 1 where the input is refused, and 3 otherwise.
    pub fn status(&self) -> u8
        ensures { result ≡ exit_status self.now }
    {
        match self {
            RunFault::Script(_)
            | RunFault::NotUtf8
            | RunFault::NotHex
            | RunFault::Blob(_)
            | RunFault::Patchset
            | RunFault::BlobList(_) => 1,
            RunFault::Call(_)
            | RunFault::Read
            | RunFault::Write
            | RunFault::OutOfMemory
            | RunFault::Close => 3,
        }
    }
}

impl From<Fault<RunFault>> for RunFault {
    ghost use Rattle.std.specs.Prelude.{◌≡◌};
    ghost use Rattle.cap_run.specs.RunFault.{input_fault};

    ghost from_gives = { λ fault ended. ended ≡ input_fault fault };

    fn from(fault: Fault<RunFault>) -> RunFault {
        match fault {
            Fault::Refused(fault) => fault,
            Fault::OutOfMemory => RunFault::OutOfMemory,
        }
    }
}
