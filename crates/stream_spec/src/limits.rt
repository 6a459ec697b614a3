//! The limit of what waits at a sender.

/// The most octets that wait to be sent.
pub const MOST_WAITING_OCTETS: usize = 16_384;
