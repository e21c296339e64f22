//! The limits of a server.

/// The most events of a history.
pub const EVENTS_MAX: u64 = (1 << 63) - 1;

/// The most sessions that may be live at once.
pub const SESSIONS_MAX: usize = 64;

/// The most databases that may be saved at once.
pub const SAVED_MAX: usize = 16;
