//! Limits that several crates share. Sizes are in octets, lengths of time in milliseconds.

/// The most octets of a text, which is one block (RFC 2198, section 3: a length has 10 bits).
pub const MOST_TEXT_OCTETS: usize = 1023;
/// The most octets of a packet.
pub const MOST_PACKET_OCTETS: usize = 4224;
/// The most octets of a primary text that no block repeats: what the fixed header of RTP leaves of a packet.
pub const MOST_PRIMARY_OCTETS: usize = 4212;
/// How long a missing packet is waited for.
pub const LONGEST_WAIT: u32 = 10_000;
/// The most packets that wait behind a missing one.
pub const MOST_HELD: usize = 64;
/// The most packets of text that are heard of one stream.
pub const MOST_ARRIVALS: u64 = 1_099_511_627_776;
/// Moments, in milliseconds, are below this.
pub const END_OF_MOMENTS: u64 = 281_474_976_710_656;
/// The most sources that are heard at one terminal.
pub const MOST_SOURCES: usize = 64;
/// The greatest timestamp offset of a redundant block, in milliseconds: 14 bits (RFC 2198, section 3).
pub const MOST_OFFSET: u16 = 16_383;
/// How far the media time goes on at once, where text is still to be repeated, with three generations: so that the
/// offset of the oldest block is at most `MOST_OFFSET`.
pub const LONGEST_STEP: u32 = 5000;
/// The same with at most two generations.
pub const LONGEST_STEP_OF_TWO: u32 = 8000;

pub const USUAL_WAIT: u32 = 1000;
