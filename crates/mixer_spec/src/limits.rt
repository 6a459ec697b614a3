//! The limits of a mixer, of what waits at it, and of what it reads.

/// The mixer's places: so many legs take part at one moment, and so many packets are sent in a turn at most (profile).
pub const PLACES: usize = 16;

/// The most octets of a label on a line of its own: U+2028, a name, and three characters round it.
pub const LONGEST_LABEL: usize = 38;

/// The most octets of a source's span: of all that waits at one terminal or another.
pub const MOST_SPAN_OCTETS: usize = 16_384;
/// The most chunks of a source's span.
pub const MOST_SPAN_CHUNKS: usize = 512;
/// The most octets of an input where there are more legs than places.
pub const MOST_INPUT_OF_MANY: u32 = 1_048_576;
