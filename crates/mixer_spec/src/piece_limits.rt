//! The limits of pieces.

/// The most octets of a piece: so many fit beside three repeats into a packet of the least octets to which packets may be limited.
pub const MOST_PIECE_OCTETS: usize = 128;
