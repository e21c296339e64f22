//! Convergence: whole changesets of a client and a hub, rebased and applied (The Session Extension, "Rebasing
//! changesets").
#![tactic(auto)]

pub mod laws;
