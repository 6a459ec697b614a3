//! What is asked for.
use rtt_base::PayloadTypes;

/// Whose text is read, and in which packets.
#[derive(Clone, Copy, Debug, PartialEq, Eq)]
pub struct ReadRequest {
    /// The SSRC of the packets.
    pub ssrc: u32,
    /// Whose text in them.
    pub source: u32,
    /// Their payload types.
    pub payload_types: PayloadTypes,
}
