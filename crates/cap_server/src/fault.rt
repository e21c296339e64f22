//! The faults of closing a server.

use thiserror::Error;

/// Why a server is not closed. It does not change; of the seats only what the first has seen may change.
#[derive(Clone, Copy, Debug, PartialEq, Eq, Drop, Error)]
pub enum CloseFault {
    /// S3: a seat was not handed back.
    #[error("missing seat {number}")]
    MissingSeat {
        /// The least missing number.
        number: u64,
    },
    /// S1: the history is longer than the one under the lock, or a seat has made other calls than the server
    /// has counted.
    #[error("overtaken, front {front}")]
    Overtaken {
        /// The number of events of the history.
        front: u64,
    },
}
