//! Laws of applying captured changes, over the definitions alone.
#![tactic(auto)]

pub mod laws;
