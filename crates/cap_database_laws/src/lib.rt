//! Laws of operations on tables and databases, over the definitions alone.
#![tactic(auto)]

pub mod laws;
