//! Laws of changegroups, over the definitions alone.
#![tactic(auto)]

pub mod laws;
