//! The faults of clients.

use cap_locked::CallFault;
use thiserror::Error;

/// Why a call has no reply. The call is no event.
#[derive(Clone, Copy, Debug, PartialEq, Eq, Drop, Error)]
pub enum HubFault {
    /// Another call has the state. Nothing has changed, and the call may be made again.
    #[error("busy")]
    Busy,
    /// What every call of a history may answer.
    #[error("{0}")]
    Call(CallFault),
}

/// Why there is no further client.
#[derive(Clone, Copy, Debug, PartialEq, Eq, Drop, Error)]
pub enum JoinFault {
    /// Another call has the state.
    #[error("busy")]
    Busy,
    /// Each of the seats is a client's.
    #[error("E10 TooMany")]
    TooMany,
    /// Out of memory.
    #[error("refused for memory")]
    OutOfMemory,
}
