//! Readers and writers whose contracts may report their calls, and a write of all bytes.
#![tactic(auto)]

mod calls;
mod source_and_sink;
mod write;

pub use calls::{CALLS_MAX, is_interrupted};
pub use source_and_sink::{Sink, Source};
pub use write::{WriteFailed, write_whole};
