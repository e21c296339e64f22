//! Captures in a row, each by a restart of the session: what they are together.
#![tactic(auto)]

pub mod laws;
mod parts;

pub use parts::{InParts, captured_in_two_parts};
