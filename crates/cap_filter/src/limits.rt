//! The limits of filters.

/// The greatest number of levels of a filter. A filter without a filter inside it has one level.
pub const DEPTH_MAX: u32 = 32;

/// The greatest number of filters in a filter: itself and those inside it at all levels.
pub const NODES_MAX: u32 = 1000;
