//! The limit of what a board shows.

/// The most octets of a leg's text that a board shows, the last ones.
pub const MOST_TAIL_OCTETS: usize = 2048;
