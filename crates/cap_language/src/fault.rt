//! Why a line has no command.
ghost use Rattle.std.specs.Prelude.{◌≡◌};

use cap_codec::BlobFault;
use cap_value::{Fault, OutOfMemory, Refusal};
use std::alloc::AllocFailed;

/// Why a line has no command.
#[derive(Clone, Copy, Debug, PartialEq, Eq, Drop)]
pub enum LineFault {
    /// A token is not expected where it stands: from its first byte on the line has this many bytes, none
    /// where it ends too early.
    Syntax {
        /// How many bytes.
        left: usize,
    },
    /// The next token exceeds a limit.
    Limit(Refusal),
    /// The bytes of the next token are neither a changeset nor a patchset.
    BadBlob(BlobFault),
    /// Out of memory.
    OutOfMemory,
}

impl From<OutOfMemory> for LineFault {
    ghost use Rattle.cap_language.specs.declared.fault.LineFault.TheVariants.{OutOfMemory};

    ghost from_gives = { λ _ fault. fault ≡ OutOfMemory };

    fn from(_error: OutOfMemory) -> LineFault {
        LineFault::OutOfMemory
    }
}

impl<T: Drop> From<AllocFailed<T>> for LineFault {
    ghost use Rattle.cap_language.specs.declared.fault.LineFault.TheVariants.{OutOfMemory};

    ghost from_gives = { λ _ fault. fault ≡ OutOfMemory };

    fn from(_error: AllocFailed<T>) -> LineFault {
        LineFault::OutOfMemory
    }
}

impl From<Fault<Refusal>> for LineFault {
    ghost use Rattle.cap_language.specs.Faults.{limit_fault};

    ghost from_gives = { λ refused fault. fault ≡ limit_fault refused };

    fn from(fault: Fault<Refusal>) -> LineFault {
        match fault {
            Fault::Refused(why) => LineFault::Limit(why),
            Fault::OutOfMemory => LineFault::OutOfMemory,
        }
    }
}

impl From<Fault<BlobFault>> for LineFault {
    ghost use Rattle.cap_language.specs.Faults.{blob_fault};

    ghost from_gives = { λ refused fault. fault ≡ blob_fault refused };

    fn from(fault: Fault<BlobFault>) -> LineFault {
        match fault {
            Fault::Refused(fault) => LineFault::BadBlob(fault),
            Fault::OutOfMemory => LineFault::OutOfMemory,
        }
    }
}
