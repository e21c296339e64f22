//! Laws of blobs, over the grammar and over the lists that are written.
#![tactic(auto)]

pub mod laws;
mod writable;

pub use writable::{changes_are_writable, patches_are_writable};
