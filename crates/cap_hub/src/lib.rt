//! One history that clients share without a lock: a call takes the state out of its place, or answers that
//! it is busy.
#![tactic(auto)]

mod client;
mod fault;
mod held;
mod hub;
mod travels;

pub use client::Client;
pub use fault::{HubFault, JoinFault};
