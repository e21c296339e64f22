//! What C sees of an applied blob.

/// The version that a blob made, how many of its changes were applied, met a conflict or were omitted, and
/// how many of its groups were skipped. A change that replaced a row in spite of a conflict is an applied
/// one.
#[repr(C)]
#[derive(Clone, Copy, Drop)]
pub struct ApplyReport {
    pub version: u64,
    pub applied: u64,
    pub conflicts: u64,
    pub omitted: u64,
    pub skipped: u64,
}

/// How many groups were passed over, since a filter does not accept their tables, and how many changes they
/// have.
#[repr(C)]
#[derive(Clone, Copy, Drop)]
pub struct PassedOver {
    pub groups: u64,
    pub changes: u64,
}
