//! Laws of the texts of workloads, over the grammar alone.
#![tactic(auto)]

pub mod laws;
