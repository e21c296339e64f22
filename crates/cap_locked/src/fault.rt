//! The faults of calls.

use thiserror::Error;

/// Why a call has no reply. The call is no event; only what its seat has seen may change.
#[derive(Clone, Copy, Debug, PartialEq, Eq, Drop, Error)]
pub enum CallFault {
    /// Out of memory. The call may be retried.
    #[error("refused for memory")]
    OutOfMemory,
    /// S1: the history is longer than the one under the lock, or the seat has made other calls than the
    /// server has counted.
    #[error("overtaken, front {front}")]
    Overtaken {
        /// The number of events of the history.
        front: u64,
    },
    /// S2: the history has 2^63 - 1 events.
    #[error("history full")]
    HistoryFull,
}

/// Why a call with a commit hook has no reply.
#[derive(Clone, Copy, Debug, PartialEq, Eq, Drop)]
pub enum HookFault<R, F> {
    /// The hook refuses the command.
    Refused(R),
    /// What a call without a hook may answer, too.
    Call(F),
}
