//! The limits of a run.
use cap_locked::SEATS_MAX;

/// The most threads that run the lines of a workload. One more seat is for the lines without `@`.
pub const THREADS_MAX: u64 = SEATS_MAX - 1;
