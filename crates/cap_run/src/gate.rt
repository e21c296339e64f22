//! A hook around the calls of workers, for tests.

/// Called around each worker's calls, outside the server's lock. A test synchronises workers in it.
pub trait Gate: Sync {
    /// Called before a worker's call. Workers are numbered from 0, and the calls of a worker over the whole
    /// workload from 0.
    fn before(&self, worker: u64, call: u64);

    /// Called after the call, whether it has a reply or a fault.
    fn after(&self, worker: u64, call: u64);
}

/// A gate that does nothing.
#[derive(Clone, Copy, Drop)]
pub struct NoGate;

impl Gate for NoGate {
    fn before(&self, _worker: u64, _call: u64) {}

    fn after(&self, _worker: u64, _call: u64) {}
}
