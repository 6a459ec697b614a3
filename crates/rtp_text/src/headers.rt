//! What is read and what is written of a header.

/// What was read of a packet.
#[derive(Clone, Copy, Debug)]
pub struct RtpView<'a> {
    /// The M bit.
    pub marker_bit: bool,
    /// The payload type, below 128.
    pub pt: u8,
    /// The sequence number.
    pub seq: u16,
    /// The timestamp.
    pub timestamp: u32,
    pub ssrc: u32,
    /// How many CSRCs there are, below 16.
    pub cc: u8,
    /// The first CSRC, where there is one.
    pub csrc: Option<u32>,
    /// What stands between the extension and the padding.
    pub payload: &'a [u8],
}

/// What is written before a payload: a header with one CSRC or none.
#[derive(Clone, Copy, Debug)]
pub struct RtpHead {
    /// The M bit.
    pub marker_bit: bool,
    /// The payload type, below 128.
    pub pt: u8,
    /// The sequence number.
    pub seq: u16,
    /// The timestamp.
    pub timestamp: u32,
    pub ssrc: u32,
    pub csrc: Option<u32>,
}
