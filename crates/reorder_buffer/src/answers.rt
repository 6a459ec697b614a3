//! What a tracker answers.

/// What became of a packet that came.
#[derive(Clone, Copy, Debug, PartialEq, Eq)]
pub enum Taken {
    /// Its number is below the stream's first one. It is not used.
    Before,
    /// Its number was settled before it came: another packet with it came in time, or it was given up. It is not used.
    Old,
    /// A packet with its number is held. It is not used.
    Repeat,
    /// It is settled now.
    Ready,
    /// It is held until each number before it has come or is given up.
    Held,
}

/// The number of a packet that is settled, and since when it is.
#[derive(Clone, Copy, Debug, PartialEq, Eq)]
pub struct Due {
    /// The sequence number, extended so that it does not go round: the stream's first packet has its own plus 65536.
    pub number: u64,
    /// The first moment, in milliseconds, at which the packet and each number before it had come or was given up.
    pub ready: u64,
}
