//! Laws of sessions, over the definitions alone.
#![tactic(auto)]

pub mod laws;
