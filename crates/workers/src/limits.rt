//! How much a queue holds.

/// How many items a queue has room for.
pub const MOST_QUEUED: usize = 64;
