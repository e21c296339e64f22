//! The state of a closed server.

use cap_core::Core;
use cap_value::AllocHandle;

/// The state of a closed server.
#[derive(Drop)]
pub struct Closed<A: AllocHandle> {
    /// The number of events of the history.
    pub events: u64,
    /// The sequential server after all of them.
    pub core: Core<A>,
}
