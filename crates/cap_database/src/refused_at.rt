//! The first refused operation of a list.
use cap_value::Refusal;
use thiserror::Error;

/// Which operation of a list is refused, and why.
#[derive(Clone, Copy, Debug, PartialEq, Eq, Drop, Error)]
#[error("operation {at}: {why}")]
pub struct RefusedAt {
    /// The operation's place in the list, counted from 0.
    pub at: usize,
    /// Why.
    pub why: Refusal,
}
