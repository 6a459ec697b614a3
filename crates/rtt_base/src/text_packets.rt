//! A packet of text as it is read.
use crate::{Blocks, PrimaryText};

/// The payload types of `text/t140` and `text/red` (RFC 4103, sections 3 and 4).
#[derive(Clone, Copy, Debug, PartialEq, Eq)]
pub struct PayloadTypes {
    pub t140: u8,
    pub red: u8,
}

/// What one packet carries.
#[derive(Debug, Default, Drop)]
pub struct TextPacket {
    /// The M bit: the first packet after a pause.
    pub marker_bit: bool,
    /// The sequence number.
    pub seq: u16,
    /// The timestamp, in ticks of 1 ms.
    pub timestamp: u32,
    /// The SSRC of the stream.
    pub ssrc: u32,
    /// Whose text it is: the only CSRC, or the SSRC where there is none (RFC 9071).
    pub source: u32,
    /// The redundant blocks, oldest first.
    pub older: Blocks,
    /// The primary text.
    pub primary: PrimaryText,
}
