//! The fault of an append to a list that is not the whole history.
use thiserror::Error;

/// An event is not appended: the history is longer than expected.
#[derive(Clone, Copy, Debug, PartialEq, Eq, Drop, Error)]
#[error("overtaken, front {front}")]
pub struct Overtaken {
    /// The number of events that the history has.
    pub front: u64,
}
