//! What is looked at. Sizes are in octets.

/// The most octets of a file that is looked at throughout: no form has more.
pub const MOST_CHECKED_OCTETS: usize = 4_194_304;
/// The most octets of a line that are shown.
pub const MOST_SHOWN_OCTETS: usize = 100;
/// The most octets that are shown of those that stand at the byte of a fault.
pub const MOST_SHOWN_AT_BYTE: usize = 16;
