//! Events, of which a history is made.

use crate::{Command, Reply};
use cap_value::AllocHandle;

/// A command with its reply. A history is a list of events, oldest first.
///
/// Contracts speak of events. No value of this type is made.
#[derive(Drop)]
pub struct Event<A: AllocHandle> {
    /// The seat that called. No reply depends on it.
    pub by: u64,
    /// The command.
    pub command: Command<A>,
    /// Its reply.
    pub reply: Reply<A>,
}
