//! Of what stream a packet is.

/// What the header of a packet tells of its stream.
#[derive(Clone, Copy, Debug, PartialEq, Eq)]
pub struct Stream {
    pub ssrc: u32,
    /// The payload type, below 128.
    pub pt: u8,
}
