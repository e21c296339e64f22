//! A client and a hub that synchronise: each captures its session, and both then have the same rows.
#![tactic(auto)]

mod synchronisation;

pub use synchronisation::{NotSynchronised, Synchronised, synchronise};
