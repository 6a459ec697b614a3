//! What a command takes where its words say nothing, and what it reads at most. Times are in milliseconds, sizes in octets.

/// The least time between two packets of what sends a script, in milliseconds (RFC 4103, section 5).
pub const USUAL_INTERVAL: u64 = 300;
/// The most octets of a recording that is split for a conference.
pub const MOST_TRUNK_OCTETS: u32 = 2_097_152;
/// The same where the conference has more legs than the mixer has places.
pub const MOST_TRUNK_OF_MANY: u32 = 524_288;
