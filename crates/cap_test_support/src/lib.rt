//! What the test crates share: memory that refuses one request, readers and writers that fail, and a commit
//! hook that counts.
#![tactic(auto)]

mod hook;
mod memory;
mod streams;

pub use hook::CountingHook;
pub use memory::Memory;
pub use streams::{Failure, Sink, Source};
