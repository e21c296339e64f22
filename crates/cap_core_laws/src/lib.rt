//! Laws of sessions and captures, over histories alone.
#![tactic(auto)]

pub mod laws;
mod writable;

pub use writable::a_capture_is_writable;
