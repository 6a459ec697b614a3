//! The limits of frames.

/// The octets of a frame before its text: a time in 4 octets and the text's length in 2.
pub const FRAME_HEAD_OCTETS: usize = 6;
/// The moments of frames, in milliseconds, are below this.
pub const END_OF_FRAME_MOMENTS: u32 = 16_777_216;
/// The most octets that frames have together.
pub const MOST_FRAMES_OCTETS: u64 = 1_048_576;
