//! The sequential server with its history, which one call at a time has: a step is one event of the history,
//! or none.
#![tactic(auto)]

mod call_hook;
mod fault;
mod limits;
mod locked;

pub use fault::{CallFault, HookFault};
pub use limits::SEATS_MAX;
pub use locked::Locked;
