//! The faults of a workload's text.
ghost use Rattle.std.specs.Prelude.{◌≡◌};
ghost use Rattle.cap_script.specs.RefusedLines.{in_line};

use cap_codec::BlobFault;
use cap_language::LineFault;
use cap_value::{Fault, Refusal};
use thiserror::Error;

/// Why a workload's text is refused. Lines are counted from 1, and bytes of a line from 0.
#[derive(Clone, Copy, Debug, PartialEq, Eq, Drop, Error)]
pub enum ScriptFault {
    /// A token of the line is not expected there.
    #[error("line {line}: G1 Syntax at {at}")]
    Syntax {
        /// The line.
        line: u64,
        /// The offset of that token, or the length of the line where it ends too early.
        at: u64,
    },
    /// The line exceeds a limit.
    #[error("line {line}: G2 {why}")]
    Limit {
        /// The line.
        line: u64,
        /// The refusal for that limit.
        why: Refusal,
    },
    /// The bytes to apply are neither a changeset nor a patchset.
    #[error("line {line}: G3 {fault}")]
    BadBlob {
        /// The line.
        line: u64,
        /// The fault of the bytes, with its offset.
        fault: BlobFault,
    },
}

// The fault of the workload, where the line with this number and this text has this fault.
pub(crate) fn in_line(fault: LineFault, line: u64, text: &str) -> Fault<ScriptFault>
    ensures { result ≡ in_line line text.now fault }
{
    match fault {
        LineFault::Syntax { left } => Fault::Refused(ScriptFault::Syntax {
            line,
            at: text.len().saturating_sub(left) as u64,
        }),
        LineFault::Limit(why) => Fault::Refused(ScriptFault::Limit { line, why }),
        LineFault::BadBlob(fault) => Fault::Refused(ScriptFault::BadBlob { line, fault }),
        LineFault::OutOfMemory => Fault::OutOfMemory,
    }
}
