//! What an ear is asked for.
use crate::cuts::TextCut;
use rtt_base::PayloadTypes;

/// Which packets are heard, how long a gap in their numbers is waited for, in milliseconds: at most 10000; and how an ear of one
/// source hands out their texts.
#[derive(Clone, Copy, Debug, PartialEq, Eq)]
pub struct EarSettings {
    /// The SSRC of the packets.
    pub ssrc: u32,
    pub payload_types: PayloadTypes,
    pub wait: u64,
    /// Whether a primary text may have more than 1023 octets.
    pub long: bool,
    pub cut: TextCut,
}
