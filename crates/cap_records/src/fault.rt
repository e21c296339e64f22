//! Why bytes give no answer.

use cap_codec::BlobFault;
use cap_value::Refusal;
use thiserror::Error;

/// Why bytes are no argument, or what a table, a batch or a transaction refuses.
#[derive(Clone, Copy, Debug, PartialEq, Eq, Drop, Error)]
pub enum RecordFault {
    /// The call has no meaning for an argument.
    #[error("misuse")]
    Misuse,
    /// The bytes are no record, or not of the fields that are asked for.
    #[error("fault {0}")]
    Malformed(BlobFault),
    /// The rules refuse it.
    #[error("refused: {0}")]
    Refused(Refusal),
}
