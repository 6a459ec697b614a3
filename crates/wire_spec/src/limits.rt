//! The limits of recordings.

/// The most octets of a recording.
pub const MOST_RECORDING_OCTETS: u32 = 4_194_304;
/// The last moment of a recording, in milliseconds: four hours.
pub const LAST_RECORD_MOMENT: u32 = 14_400_000;
