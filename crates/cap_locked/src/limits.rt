//! The limits of a server that clients share.

/// The most seats of a server.
pub const SEATS_MAX: u64 = 64;
