//! What the calls for C do, as a Rust library has it: connections to a history in memory, which several may
//! share, an iterator over the changes of a blob, and a decoder that gets one in pieces.
#![tactic(auto)]

mod application;
mod apply_quiet;
mod apply_with;
mod captured;
mod columns;
mod connection;
mod decoder;
mod fault;
mod iter;
mod iter_fields;
mod iter_position;
mod iter_record;
mod load;
mod one_command;
mod printer;
mod replies;

pub use application::{Application, ApplicationFault};
pub use cap_applier::Passed;
pub use captured::{CaptureKind, Captured};
pub use connection::Connection;
pub use decoder::PieceDecoder;
pub use fault::{ConnectionFault, TextFault};
pub use iter::BlobIter;
pub use iter_fields::ChangeHead;
pub use replies::Applied;
